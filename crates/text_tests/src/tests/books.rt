//! Runbooks that are read, and the first line of a book that is refused.
ghost use Rattle.std.specs.Prelude.{◌<◌, ◌^◌, length};

use router_config::{Config, Edit, read_config};
use runbook::{Book, BookFault, BookKind, BookLine, ReadBook, read_book};
use std::alloc::Global;
use std::process::Abort;
use urpf_base::{Addr, IfaceId, Mode, Prefix, Role};

/// Interfaces 0 and 5, and sessions 0, 1 and 2 on them.
const CONFIG: &[u8] = b"\
interface = [{number = 0, role = \"customer\", mode = \"efp-a\"}, {number = 5, role = \"peer\", mode = \"off\"}]
session = [{interface = 0, peer_as = 1}, {interface = 5, peer_as = 2}, {interface = 5, peer_as = 3}]
";

fn config(rt: &impl Abort, alloc: Global) -> Config {
    match read_config(alloc, CONFIG) {
        Ok(config) => config,
        Err(_) => panic!(rt; "no configuration"),
    }
}

/// A line that is wanted.
#[derive(Clone, Copy)]
enum Wanted {
    Pull(Option<u32>, Option<u64>),
    Publish,
    Round,
    Check(u16, Addr),
    Role(u16, Role),
    Mode(u16, Mode),
    /// Of an address, a length and an AS number.
    PairAdd(Addr, u8, u32),
    PairDel(Addr, u8, u32),
    Summary,
}

fn iface(rt: &impl Abort, number: u16) -> IfaceId {
    IfaceId::new(number).expect(rt, "below 64")
}

fn prefix(rt: &impl Abort, addr: Addr, len: u8) -> Prefix {
    Prefix::new(addr, len).expect(rt, "a length of the family")
}

/// The line of a book that is meant.
fn line_of(rt: &impl Abort, wanted: Wanted) -> BookLine {
    match wanted {
        Wanted::Pull(session, count) => BookLine::Pull { session, count },
        Wanted::Publish => BookLine::Publish,
        Wanted::Round => BookLine::Round,
        Wanted::Check(number, addr) => BookLine::Check {
            iface: iface(rt, number),
            addr,
        },
        Wanted::Role(number, role) => BookLine::Change(Edit::Role(iface(rt, number), role)),
        Wanted::Mode(number, mode) => BookLine::Change(Edit::Mode(iface(rt, number), mode)),
        Wanted::PairAdd(addr, len, asn) => {
            BookLine::Change(Edit::PairAdd(prefix(rt, addr, len), asn))
        }
        Wanted::PairDel(addr, len, asn) => {
            BookLine::Change(Edit::PairDel(prefix(rt, addr, len), asn))
        }
        Wanted::Summary => BookLine::Summary,
    }
}

fn read(rt: &impl Abort, alloc: Global, config: &Config, text: &[u8]) -> Book
    requires { length text.now < 2 ^ 32 }
{
    match read_book(alloc, text, config) {
        Ok(book) => book,
        Err(_) => panic!(rt; "no book: {text:?}"),
    }
}

/// Each form of a line.
const FORMS: [(&str, Wanted); 27] = [
    ("pull 0 5", Wanted::Pull(Some(0), Some(5))),
    ("pull 2 all", Wanted::Pull(Some(2), None)),
    ("pull * 1000000000", Wanted::Pull(None, Some(1_000_000_000))),
    ("pull * 0", Wanted::Pull(None, Some(0))),
    ("pull * all", Wanted::Pull(None, None)),
    ("publish", Wanted::Publish),
    ("round", Wanted::Round),
    ("summary", Wanted::Summary),
    ("check 5 192.0.2.1", Wanted::Check(5, Addr::V4(0xC000_0201))),
    (
        "check 0 2001:DB8::1",
        Wanted::Check(0, Addr::V6(0x2001_0DB8_0000_0000_0000_0000_0000_0001)),
    ),
    ("role 5 customer", Wanted::Role(5, Role::Customer)),
    ("role 0 peer", Wanted::Role(0, Role::Peer)),
    ("role 0 provider", Wanted::Role(0, Role::Provider)),
    ("mode 5 off", Wanted::Mode(5, Mode::Off)),
    ("mode 0 feasible", Wanted::Mode(0, Mode::Feasible)),
    ("mode 0 loose", Wanted::Mode(0, Mode::Loose)),
    (
        "mode 0 loose-nodefault",
        Wanted::Mode(0, Mode::LooseNoDefault),
    ),
    ("mode 0 efp-a", Wanted::Mode(0, Mode::EfpA)),
    ("mode 0 efp-b", Wanted::Mode(0, Mode::EfpB)),
    (
        "pair add 192.0.2.0/24 64501",
        Wanted::PairAdd(Addr::V4(0xC000_0200), 24, 64_501),
    ),
    (
        "pair del 192.0.2.0/24 64501",
        Wanted::PairDel(Addr::V4(0xC000_0200), 24, 64_501),
    ),
    // Bits past the length count for nothing, and the letters stand in either case.
    (
        "pair add 192.0.2.77/24 As64501",
        Wanted::PairAdd(Addr::V4(0xC000_0200), 24, 64_501),
    ),
    (
        "pair del 2001:DB8::1/32 as4294967295",
        Wanted::PairDel(
            Addr::V6(0x2001_0DB8_0000_0000_0000_0000_0000_0000),
            32,
            4_294_967_295,
        ),
    ),
    // The shortest and the longest of each family, and AS 0.
    ("pair add 0.0.0.0/0 0", Wanted::PairAdd(Addr::V4(0), 0, 0)),
    (
        "pair add 255.255.255.255/32 AS1",
        Wanted::PairAdd(Addr::V4(0xFFFF_FFFF), 32, 1),
    ),
    (
        "\tpair  del\t::/0 7 # x",
        Wanted::PairDel(Addr::V6(0), 0, 7),
    ),
    (
        "pair del ::2/128 64501",
        Wanted::PairDel(Addr::V6(2), 128, 64_501),
    ),
];

/// Asserts that each text is a book of that one line.
fn expect_forms(rt: &impl Abort, alloc: Global, config: &Config, cases: &[(&str, Wanted)]) {
    for (text, wanted) in cases {
        assert!(rt; text.len() < 1000);
        let book = read(rt, alloc, config, text.as_bytes());
        assert!(rt; book.len() == 1, "{text}");
        assert!(rt; book.line(0) == (1, line_of(rt, *wanted)), "{text}");
    }
}

#[test]
fn each_form_of_a_line_is_read(rt: HostRuntime) {
    let config = config(&rt, rt.alloc());
    expect_forms(&rt, rt.alloc(), &config, &FORMS);
}

/// Books, and the numbers of their lines.
const LINES: [(&str, &[u32]); 5] = [
    // A comment, words parted by several blanks, a line without words, and a last line that no LF
    // ends.
    (
        "# a run\r\npull 0 5\r\n\tpull  *\tall # the rest\n\n \t\npublish\nround",
        &[2, 3, 6, 7],
    ),
    // No words.
    ("", &[]),
    (" \n#publish\r\n\t", &[]),
    // A comment that follows a word at once.
    ("pull 0 7#8\r\n#\npublish#", &[1, 3]),
    // Rounds on either side of a comment.
    ("round\n#round\nround\n", &[1, 3]),
];

/// Asserts that the lines of each book have these numbers.
fn expect_lines(rt: &impl Abort, alloc: Global, config: &Config, cases: &[(&str, &[u32])]) {
    for (text, numbers) in cases {
        assert!(rt; text.len() < 1000);
        expect_numbers(rt, &read(rt, alloc, config, text.as_bytes()), numbers);
    }
}

fn expect_numbers(rt: &impl Abort, book: &Book, numbers: &[u32]) {
    assert_eq!(rt; book.len(), numbers.len());
    for (k, number) in numbers.iter().enumerate() {
        assert_eq!(rt; book.line(k).0, *number);
    }
}

#[test]
fn lines_keep_their_numbers(rt: HostRuntime) {
    let config = config(&rt, rt.alloc());
    expect_lines(&rt, rt.alloc(), &config, &LINES);
}

/// Where and how a book is refused.
fn fault(alloc: Global, config: &Config, text: &[u8]) -> Option<(u32, BookKind)>
    requires { length text.now < 2 ^ 32 }
{
    match read_book(alloc, text, config) {
        Err(ReadBook::Bad(BookFault { line, kind })) => Some((line, kind)),
        _ => None,
    }
}

/// Asserts that each book is refused at that line for this.
fn expect_faults(
    rt: &impl Abort,
    alloc: Global,
    config: &Config,
    cases: &[(&str, u32)],
    kind: BookKind,
) {
    for (text, line) in cases {
        assert!(rt; text.len() < 1000);
        assert!(rt;
            fault(alloc, config, text.as_bytes()) == Some((*line, kind)),
            "{text}"
        );
    }
}

/// A session that is not configured: the one past the last, the greatest, and before a line that is
/// no line.
const NO_SESSION: [(&str, u32); 3] = [
    ("pull 3 5", 1),
    ("\npull 65535 all", 2),
    ("publish\npull 3 all\nx", 2),
];

/// An interface that is not configured: between two that are, the greatest, and the first of two.
const NO_IFACE: [(&str, u32); 6] = [
    ("check 4 192.0.2.1", 1),
    ("check 64 192.0.2.1", 1),
    ("check 65535 192.0.2.1", 1),
    ("round\nrole 1 peer\nx", 2),
    ("mode 63 off", 1),
    ("check 1 192.0.2.1\npull 3 all", 1),
];

/// Words that are those of no line, also where the session or the interface is not configured.
const NO_LINE: [(&str, u32); 46] = [
    ("publish\n#\npublis\n", 3),
    ("pull 3 x", 1),
    ("check 1 192.0.2", 1),
    ("role 1 client", 1),
    ("mode 1 efp", 1),
    // Each name in the place of the other.
    ("role 0 off", 1),
    ("mode 0 peer", 1),
    // Numbers that are written otherwise or past their bounds.
    ("pull 00 5", 1),
    ("pull 0 05", 1),
    ("pull 65536 5", 1),
    ("pull 0 1000000001", 1),
    ("pull 3 1000000001", 1),
    ("check 65536 192.0.2.1", 1),
    ("check 0 192.0.2.1/32", 1),
    ("check * 192.0.2.1", 1),
    ("pull 0 *", 1),
    ("pull all 5", 1),
    ("pull ** 5", 1),
    // Another case, a word too few or too many.
    ("Publish", 1),
    ("role 0 Peer", 1),
    ("pull 0", 1),
    ("publish now", 1),
    ("round 1", 1),
    ("summary 0", 1),
    ("summary all", 1),
    // A pair without a length, with one past its family, or with a dotted or too great AS number.
    ("pair add 192.0.2.0 64501", 1),
    ("pair add 192.0.2.0/33 64501", 1),
    ("pair add 2001:db8::/129 64501", 1),
    ("pair add 192.0.2.0/024 64501", 1),
    ("pair add 192.0.2.0/24 1.5", 1),
    ("pair add 192.0.2.0/24 4294967296", 1),
    ("pair del 192.0.2.0/24 AS", 1),
    ("pair del 192.0.2.0/24 064501", 1),
    // A word of it that is missing, one too many, in another place, or of another line.
    ("pair add 192.0.2.0/24", 1),
    ("pair 192.0.2.0/24 64501", 1),
    ("add 192.0.2.0/24 64501", 1),
    ("pair add 192.0.2.0/24 AS 64501", 1),
    ("pair del 192.0.2.0/24 64501 24", 1),
    ("pair add 64501 192.0.2.0/24", 1),
    ("publish\npair Add 192.0.2.0/24 64501", 2),
    ("pair delete 192.0.2.0/24 64501", 1),
    ("pair", 1),
    ("role pair 192.0.2.0/24 64501", 1),
    // A CR that no LF follows, and the first of two.
    ("publish\r", 1),
    ("\r", 1),
    ("publish\r\r\n", 1),
];

#[test]
fn a_session_that_is_not_configured_is_named(rt: HostRuntime) {
    let config = config(&rt, rt.alloc());
    expect_faults(&rt, rt.alloc(), &config, &NO_SESSION, BookKind::Session);
}

#[test]
fn an_interface_that_is_not_configured_is_named(rt: HostRuntime) {
    let config = config(&rt, rt.alloc());
    expect_faults(&rt, rt.alloc(), &config, &NO_IFACE, BookKind::Iface);
}

#[test]
fn words_of_no_line_are_named_first(rt: HostRuntime) {
    let config = config(&rt, rt.alloc());
    expect_faults(&rt, rt.alloc(), &config, &NO_LINE, BookKind::Syntax);
}

/// So many lines `round`.
fn rounds(rt: &impl Abort, alloc: Global, count: u32) -> Vec<u8> {
    let mut text = Vec::new(alloc);
    for _ in 0..count {
        text.extend_from_slice(b"round\n").expect(rt, "memory");
    }
    text
}

#[test]
fn the_65536th_round_is_too_many(rt: HostRuntime) {
    let alloc = rt.alloc();
    let config = config(&rt, alloc);
    let most = rounds(&rt, alloc, 65_535);
    assert!(rt; most.len() < 1_000_000);
    assert_eq!(rt; read(&rt, alloc, &config, &most).len(), 65_535);
    let more = rounds(&rt, alloc, 65_536);
    assert!(rt; more.len() < 1_000_000);
    assert_eq!(rt;
        fault(alloc, &config, &more),
        Some((65_536, BookKind::Rounds))
    );
}

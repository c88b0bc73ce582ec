//! Each line as it stands in the output.
ghost use Rattle.std.specs.Prelude.{◌≡◌, ◌⊎◌};

use report_text::{
    put_check, put_done, put_end, put_mark, put_one, put_reset, put_round, put_run, put_summary,
};
use std::process::Abort;
use urpf_base::{Addr, IfaceId, Line, ResetCause, Verdict};

/// 198.51.100.9.
const SOURCE: Addr = Addr::V4(0xC633_6409);

#[test]
fn a_run_opens_and_closes(rt: HostRuntime) {
    let mut line = Line::new();
    put_run(2, 1, 1, 1, &mut line);
    let opens = b"run interfaces 2 sessions 1 pairs 1 skipped 1\n";
    assert_eq!(rt; line.bytes(), opens.as_slice());
    let mut line = Line::new();
    put_done(3, 17, &mut line);
    let closes = b"done publications 3 packets 17\n";
    assert_eq!(rt; line.bytes(), closes.as_slice());
}

#[test]
fn a_round_and_a_summary_are_told(rt: HostRuntime) {
    let mut line = Line::new();
    put_round(1, &mut line);
    assert_eq!(rt; line.bytes(), b"round 1\n".as_slice());
    let mut line = Line::new();
    put_summary(3, 0, &mut line);
    assert_eq!(rt; line.bytes(), b"summary rows 3 pairs 0\n".as_slice());
}

/// Publications: number, edits, cells, the items of each session, and the line.
const MARKS: [(u64, u64, u64, &[u64], &[u8]); 2] = [
    (0, 0, 4, &[], b"publish 0 edits 0 cells 4 items\n"),
    (
        2,
        1,
        4,
        &[5, 0, 10],
        b"publish 2 edits 1 cells 4 items 5 0 10\n",
    ),
];

/// That each publication is told so.
fn are_marks(rt: &impl Abort, rows: &[(u64, u64, u64, &[u64], &[u8])]) {
    for row in rows {
        let (number, edits, cells, items, text) = *row;
        let mut line = Line::new();
        assert!(rt; items.len() <= 128);
        put_mark(number, edits, cells, items, &mut line);
        assert_eq!(rt; line.bytes(), text);
    }
}

#[test]
fn a_publication_tells_the_items_of_each_session(rt: HostRuntime) {
    are_marks(&rt, &MARKS);
    let mut line = Line::new();
    put_mark(0, 0, 0, &[u64::MAX; 128], &mut line);
    // 31 octets up to `items`, 128 times a space and 20 digits, and the line feed.
    assert_eq!(rt; line.bytes().len(), 2720);
}

/// Ends of sessions: number, items, rest, and the line.
const ENDS: [(u32, u64, u64, &[u8]); 2] = [
    (1, 12, 18, b"end 1 items 12 rest 18\n"),
    (
        u32::MAX,
        u64::MAX,
        0,
        b"end 4294967295 items 18446744073709551615 rest 0\n",
    ),
];

/// Causes, and the line of a reset at item 12 of session 1.
const RESETS: [(ResetCause, &[u8]); 3] = [
    (ResetCause::Fault(3, 11), b"reset 1 item 12 fault 3 11\n"),
    (
        ResetCause::Notified(6, 0),
        b"reset 1 item 12 notified 6 0\n",
    ),
    (ResetCause::Closed, b"reset 1 item 12 closed\n"),
];

/// That each end is told so.
fn are_ends(rt: &impl Abort, rows: &[(u32, u64, u64, &[u8])]) {
    for row in rows {
        let (session, items, rest, text) = *row;
        let mut line = Line::new();
        put_end(session, items, rest, &mut line);
        assert_eq!(rt; line.bytes(), text);
    }
}

/// That each reset is told so.
fn are_resets(rt: &impl Abort, rows: &[(ResetCause, &[u8])]) {
    for row in rows {
        let (cause, text) = *row;
        let mut line = Line::new();
        put_reset(1, 12, &cause, &mut line);
        assert_eq!(rt; line.bytes(), text);
    }
}

#[test]
fn a_session_ends_with_its_rest_and_a_reset_names_its_cause(rt: HostRuntime) {
    are_ends(&rt, &ENDS);
    are_resets(&rt, &RESETS);
}

/// The line of a check of a source on an interface, at a publication.
fn is_checked(rt: &impl Abort, iface: u16, addr: Addr, verdict: Verdict, number: u64, text: &[u8])
    requires { (verdict ≡ Verdict.Pass) ⊎ (verdict ≡ Verdict.Drop) }
{
    let iface = IfaceId::new(iface).expect(rt, "below 64");
    let mut line = Line::new();
    put_check(iface, &addr, verdict, number, &mut line);
    assert_eq!(rt; line.bytes(), text);
}

/// The line of `check` for the source, after one message with two prefixes.
fn is_told(rt: &impl Abort, pass: bool, text: &[u8]) {
    let mut line = Line::new();
    put_one(&SOURCE, pass, 1, 2, 0, &mut line);
    assert_eq!(rt; line.bytes(), text);
}

#[test]
fn a_check_tells_its_verdict(rt: HostRuntime) {
    is_told(
        &rt,
        true,
        b"check 198.51.100.9 pass messages 1 prefixes 2 rest 0\n",
    );
    is_told(
        &rt,
        false,
        b"check 198.51.100.9 drop messages 1 prefixes 2 rest 0\n",
    );
    let wide = Addr::V6(0x2001_0DB8_0000_0000_0000_0000_0000_0001);
    let text = b"check 0 2001:0db8:0000:0000:0000:0000:0000:0001 pass 0\n";
    is_checked(&rt, 0, wide, Verdict::Pass, 0, text);
    is_checked(
        &rt,
        63,
        SOURCE,
        Verdict::Drop,
        12,
        b"check 63 198.51.100.9 drop 12\n",
    );
}

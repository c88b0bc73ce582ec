//! Configurations that are read, and what they configure.

use router_config::{Config, Edit, apply_edit, read_config};
use std::alloc::Global;
use std::process::Abort;
use urpf_base::{Addr, IfaceId, Kind, Mode, Prefix, Role, SessionConfig};

/// One interface and one session on it, as a table each.
const ONE_SESSION: &[u8] = b"\
[[interface]]
number = 0
role = \"customer\"
mode = \"feasible\"

[[session]]
interface = 0
peer_as = 64501
";

/// Two customers and a provider, the greatest number first, and a session on each.
const THREE_SESSIONS: &[u8] = b"\
interface = [
  {number = 2, role = \"provider\", mode = \"loose\"},
  {number = 1, role = \"customer\", mode = \"efp-a\"},
  {number = 0, role = \"customer\", mode = \"efp-a\"},
]
session = [
  {interface = 0, peer_as = 64501},
  {interface = 1, peer_as = 64502},
  {interface = 2, peer_as = 64499},
]
";

/// The greatest numbers and the least, on one interface.
const BOUNDS: &[u8] = b"\
interface = [{number = 63, role = \"peer\", mode = \"off\"}]
session = [
  {interface = 63, peer_as = 4294967295, hold = 65535, max_prefixes = 4000000},
  {interface = 63, peer_as = 1, hold = 3, max_prefixes = 1},
  {interface = 63, peer_as = 1, hold = 0},
]
";

/// A byte order mark, CR before LF, keys in quotes, a number in hexadecimal, and no session.
const UNUSUAL: &[u8] =
    b"\xEF\xBB\xBF[[\"interface\"]]\r\nnumber = 0x3F\r\nrole = 'peer'\r\n\"mode\" = 'off'\r\n";

/// An empty array of sessions before the interfaces.
const NO_SESSION: &[u8] =
    b"session = []\ninterface = [{number = 5, role = \"peer\", mode = \"off\"}]";

fn read(rt: &impl Abort, alloc: Global, text: &[u8]) -> Config {
    match read_config(alloc, text) {
        Ok(config) => config,
        Err(_) => panic!(rt; "no configuration"),
    }
}

fn iface(rt: &impl Abort, number: u16) -> IfaceId {
    IfaceId::new(number).expect(rt, "below 64")
}

/// Asserts that the interface has this kind, or is not configured.
fn expect_kind(rt: &impl Abort, config: &Config, number: u16, kind: Option<(Role, Mode)>) {
    let kind = match kind {
        Some((role, mode)) => Some(Kind { role, mode }),
        None => None,
    };
    assert!(rt;
        config.kind(iface(rt, number)) == kind,
        "interface {number}"
    );
}

/// Asserts that these are the sessions, each by its interface, its peer, its hold time and its most
/// prefixes.
fn expect_sessions(rt: &impl Abort, config: &Config, wanted: &[(u16, u32, u16, u32)]) {
    assert_eq!(rt; config.sessions(), wanted.len());
    for (s, row) in wanted.iter().enumerate() {
        let session = SessionConfig {
            iface: iface(rt, row.0),
            peer_as: row.1,
            hold: row.2,
            max: row.3,
        };
        assert!(rt; config.session(s) == session, "session {s}");
    }
}

#[test]
fn one_session_is_read_with_its_defaults(rt: HostRuntime) {
    let config = read(&rt, rt.alloc(), ONE_SESSION);
    assert_eq!(rt; config.interfaces(), 1);
    expect_kind(&rt, &config, 0, Some((Role::Customer, Mode::Feasible)));
    expect_kind(&rt, &config, 1, None);
    expect_sessions(&rt, &config, &[(0, 64501, 90, 2_000_000)]);
}

#[test]
fn sessions_keep_their_order(rt: HostRuntime) {
    let config = read(&rt, rt.alloc(), THREE_SESSIONS);
    assert_eq!(rt; config.interfaces(), 3);
    expect_kind(&rt, &config, 0, Some((Role::Customer, Mode::EfpA)));
    expect_kind(&rt, &config, 1, Some((Role::Customer, Mode::EfpA)));
    expect_kind(&rt, &config, 2, Some((Role::Provider, Mode::Loose)));
    let sessions = [
        (0, 64501, 90, 2_000_000),
        (1, 64502, 90, 2_000_000),
        (2, 64499, 90, 2_000_000),
    ];
    expect_sessions(&rt, &config, &sessions);
}

#[test]
fn interfaces_ascend(rt: HostRuntime) {
    let config = read(&rt, rt.alloc(), THREE_SESSIONS);
    let kinds = config.kinds().expect(&rt, "memory");
    assert_eq!(rt; kinds.len(), 3);
    for (number, row) in kinds.items().iter().enumerate() {
        assert!(rt; row.0.number() as usize == number);
    }
}

#[test]
fn bounds_are_read(rt: HostRuntime) {
    let config = read(&rt, rt.alloc(), BOUNDS);
    expect_kind(&rt, &config, 63, Some((Role::Peer, Mode::Off)));
    let sessions = [
        (63, 4_294_967_295, 65535, 4_000_000),
        (63, 1, 3, 1),
        (63, 1, 0, 2_000_000),
    ];
    expect_sessions(&rt, &config, &sessions);
}

#[test]
fn what_toml_allows_is_read(rt: HostRuntime) {
    for text in [UNUSUAL, NO_SESSION] {
        let config = read(&rt, rt.alloc(), text);
        assert_eq!(rt; config.interfaces(), 1);
        assert_eq!(rt; config.sessions(), 0);
    }
}

#[test]
fn an_edit_changes_one_interface(rt: HostRuntime) {
    let mut config = read(&rt, rt.alloc(), THREE_SESSIONS);
    let before = config.kinds().expect(&rt, "memory");
    let one = iface(&rt, 1);
    apply_edit(&mut config, &Edit::Mode(one, Mode::EfpB));
    apply_edit(&mut config, &Edit::Role(one, Role::Peer));
    expect_kind(&rt, &config, 0, Some((Role::Customer, Mode::EfpA)));
    expect_kind(&rt, &config, 1, Some((Role::Peer, Mode::EfpB)));
    let after = config.kinds().expect(&rt, "memory");
    assert!(rt; !before.same(&after), "an edit changes them");
    let copy = before.copied().expect(&rt, "memory");
    assert!(rt; before.same(&copy), "a copy is the same");
}

#[test]
fn an_edit_of_a_pair_leaves_the_interfaces(rt: HostRuntime) {
    let mut config = read(&rt, rt.alloc(), THREE_SESSIONS);
    // 192.0.2.0/24, and the numbers of interfaces as AS numbers.
    let prefix = Prefix::new(Addr::V4(0xC000_0200), 24).expect(&rt, "a length of IPv4");
    apply_edit(&mut config, &Edit::PairAdd(prefix, 1));
    apply_edit(&mut config, &Edit::PairDel(prefix, 2));
    apply_edit(&mut config, &Edit::PairDel(prefix, 0));
    expect_kind(&rt, &config, 0, Some((Role::Customer, Mode::EfpA)));
    expect_kind(&rt, &config, 1, Some((Role::Customer, Mode::EfpA)));
    expect_kind(&rt, &config, 2, Some((Role::Provider, Mode::Loose)));
    expect_kind(&rt, &config, 3, None);
    expect_sessions(
        &rt,
        &config,
        &[
            (0, 64501, 90, 2_000_000),
            (1, 64502, 90, 2_000_000),
            (2, 64499, 90, 2_000_000),
        ],
    );
}

//! Texts that are refused: each keeps the rules before the one that it breaks, and breaks rules
//! behind it.

ghost use Rattle.std.specs.Prelude.{◌<◌};

use router_config::{ConfigFault, ConfigKind, ReadConfig, read_config};
use std::alloc::Global;
use std::process::Abort;

/// The first rule that a text breaks.
fn fault_of(alloc: Global, text: &[u8]) -> Option<ConfigFault> {
    match read_config(alloc, text) {
        Err(ReadConfig::Bad(fault)) => Some(fault),
        _ => None,
    }
}

/// Asserts that the text is refused so.
fn expect_fault(rt: &impl Abort, alloc: Global, text: &str, kind: ConfigKind, index: u32) {
    let fault = ConfigFault { kind, index };
    assert!(rt; fault_of(alloc, text.as_bytes()) == Some(fault), "{text}");
}

/// The three texts one after the other.
fn joined(rt: &impl Abort, alloc: Global, front: &str, fields: &str, back: &str) -> String {
    format!(in alloc; "{front}{fields}{back}").expect(rt, "memory")
}

/// Asserts that each text, which stands between these two, is refused so.
fn expect_faults(
    rt: &impl Abort,
    alloc: Global,
    cases: &[(&str, ConfigKind)],
    front: &str,
    back: &str,
    index: u32,
) {
    for (fields, kind) in cases {
        let text = joined(rt, alloc, front, fields, back);
        expect_fault(rt, alloc, text.as_str(), *kind, index);
    }
}

/// Texts that keep the rules before theirs and break rules behind it.
const ON_THE_WHOLE: [(&str, ConfigKind); 15] = [
    ("other = 1\ninterface = ", ConfigKind::NotToml),
    ("interface = 1\ninterface = 2", ConfigKind::NotToml),
    ("[interface]\n[interface]", ConfigKind::NotToml),
    ("other = 1\ninterface = 3", ConfigKind::UnknownKey),
    ("Interface = []", ConfigKind::UnknownKey),
    ("session = 3", ConfigKind::Interfaces),
    ("interface = []\nsession = 3", ConfigKind::Interfaces),
    ("interface = 3\nsession = 3", ConfigKind::Interfaces),
    ("interface = [1]", ConfigKind::Interfaces),
    ("interface = [{}, 1]", ConfigKind::Interfaces),
    ("interface.number = 0", ConfigKind::Interfaces),
    ("interface = {number = 0}", ConfigKind::Interfaces),
    ("[interface]\nnumber = 0", ConfigKind::Interfaces),
    ("", ConfigKind::Interfaces),
    ("\r\n# nothing\r\n", ConfigKind::Interfaces),
];

/// The fields of a second interface, behind one with number 5, of which a rule is broken.
const IN_AN_INTERFACE: [(&str, ConfigKind); 17] = [
    ("other = 1, number = 64", ConfigKind::UnknownKey),
    ("Number = 4", ConfigKind::UnknownKey),
    ("role = 1", ConfigKind::Number),
    ("number = 64, role = 1", ConfigKind::Number),
    ("number = -1", ConfigKind::Number),
    ("number = 4.0", ConfigKind::Number),
    ("number = \"4\"", ConfigKind::Number),
    ("number.four = 4", ConfigKind::Number),
    ("number = 5, role = 1", ConfigKind::Repeat),
    ("number = 4, mode = 1", ConfigKind::Role),
    ("number = 4, role = 1, mode = 1", ConfigKind::Role),
    ("number = 4, role = \"client\"", ConfigKind::Role),
    ("number = 4, role = \"Peer\"", ConfigKind::Role),
    ("number = 4, role = \"peer\"", ConfigKind::Mode),
    ("number = 4, role = \"peer\", mode = 1", ConfigKind::Mode),
    (
        "number = 4, role = \"peer\", mode = \"efp\"",
        ConfigKind::Mode,
    ),
    (
        "number = 4, role = \"peer\", mode = \"Off\"",
        ConfigKind::Mode,
    ),
];

/// The fields of a second session, of which a rule is broken. There is interface 5 alone.
const IN_A_SESSION: [(&str, ConfigKind); 19] = [
    ("other = 1, interface = 4", ConfigKind::UnknownKey),
    ("peer_AS = 1", ConfigKind::UnknownKey),
    ("peer_as = 0", ConfigKind::Interface),
    ("interface = 4, peer_as = 0", ConfigKind::Interface),
    ("interface = 64", ConfigKind::Interface),
    ("interface = \"5\"", ConfigKind::Interface),
    ("interface = 5, hold = 1", ConfigKind::PeerAs),
    ("interface = 5, peer_as = 0, hold = 1", ConfigKind::PeerAs),
    ("interface = 5, peer_as = 4294967296", ConfigKind::PeerAs),
    ("interface = 5, peer_as = [1]", ConfigKind::PeerAs),
    (
        "interface = 5, peer_as = 1, hold = 1, max_prefixes = 0",
        ConfigKind::Hold,
    ),
    ("interface = 5, peer_as = 1, hold = 2", ConfigKind::Hold),
    ("interface = 5, peer_as = 1, hold = 65536", ConfigKind::Hold),
    ("interface = 5, peer_as = 1, hold = 90.0", ConfigKind::Hold),
    ("interface = 5, peer_as = 1, hold = true", ConfigKind::Hold),
    (
        "interface = 5, peer_as = 1, max_prefixes = 0",
        ConfigKind::MaxPrefixes,
    ),
    (
        "interface = 5, peer_as = 1, max_prefixes = 4000001",
        ConfigKind::MaxPrefixes,
    ),
    (
        "interface = 5, peer_as = 1, max_prefixes = \"1\"",
        ConfigKind::MaxPrefixes,
    ),
    (
        "interface = 5, peer_as = 1, max_prefixes = {}",
        ConfigKind::MaxPrefixes,
    ),
];

/// What stands at `session` behind an interface, and is no array of tables.
const AT_SESSION: [(&str, ConfigKind); 4] = [
    ("session = 3", ConfigKind::Sessions),
    ("[session]", ConfigKind::Sessions),
    ("session = [1]", ConfigKind::Sessions),
    ("session.interface = 5", ConfigKind::Sessions),
];

/// An interface, and what stands before a second one.
const INTERFACE: &str = "interface = [{number = 5, role = \"peer\", mode = \"off\"}, {";

/// An interface, and what stands before the sessions.
const INTERFACES: &str = "interface = [{number = 5, role = \"peer\", mode = \"off\"}]\n";

/// An interface and a session, and what stands before a second one.
const SESSION: &str = "interface = [{number = 5, role = \"peer\", mode = \"off\"}]\n\
    session = [{interface = 5, peer_as = 1}, {";

#[test]
fn a_rule_on_the_whole_is_named_at_0(rt: HostRuntime) {
    expect_faults(&rt, rt.alloc(), &ON_THE_WHOLE, "", "", 0);
}

#[test]
fn a_rule_on_an_interface_is_named_at_its_place(rt: HostRuntime) {
    expect_faults(
        &rt,
        rt.alloc(),
        &IN_AN_INTERFACE,
        INTERFACE,
        "}]\nsession = 3",
        1,
    );
}

#[test]
fn sessions_that_are_no_array_of_tables_are_named_at_0(rt: HostRuntime) {
    expect_faults(&rt, rt.alloc(), &AT_SESSION, INTERFACES, "", 0);
}

#[test]
fn a_rule_on_a_session_is_named_at_its_place(rt: HostRuntime) {
    expect_faults(&rt, rt.alloc(), &IN_A_SESSION, SESSION, "}]", 1);
}

#[test]
fn octets_that_are_no_utf8_are_no_toml(rt: HostRuntime) {
    let fault = ConfigFault {
        kind: ConfigKind::NotToml,
        index: 0,
    };
    assert!(rt; fault_of(rt.alloc(), b"# \xFF\nother = 1") == Some(fault));
}

/// The text, and then the table so many times.
fn repeated(rt: &impl Abort, alloc: Global, front: &str, table: &str, count: u32) -> String {
    let mut text = String::from_str(alloc, front).expect(rt, "memory");
    for _ in 0..count {
        text.push_str(table).expect(rt, "memory");
    }
    text
}

/// Asserts that so many tables are read, in which an unknown key stands, and that one more is refused
/// so.
fn expect_most(
    rt: &impl Abort,
    alloc: Global,
    front: &str,
    table: &str,
    most: u32,
    kind: ConfigKind,
)
    requires { most < 1000 }
{
    let text = repeated(rt, alloc, front, table, most);
    expect_fault(rt, alloc, text.as_str(), ConfigKind::UnknownKey, 0);
    let text = repeated(rt, alloc, front, table, most + 1);
    expect_fault(rt, alloc, text.as_str(), kind, 0);
}

#[test]
fn interface_65_is_too_many(rt: HostRuntime) {
    let table = "[[interface]]\nother = 1\n";
    expect_most(
        &rt,
        rt.alloc(),
        "",
        table,
        64,
        ConfigKind::TooManyInterfaces,
    );
}

#[test]
fn session_129_is_too_many(rt: HostRuntime) {
    let front = "[[interface]]\nnumber = 0\nrole = \"peer\"\nmode = \"off\"\n";
    let table = "[[session]]\nother = 1\n";
    expect_most(
        &rt,
        rt.alloc(),
        front,
        table,
        128,
        ConfigKind::TooManySessions,
    );
}

//! What bodies withdraw and announce, in which order, and bodies that mention no prefix.
use super::updates::read;
use as_path::Width;
use bgp_update::UpdateView;
use message_octets::{
    ANNOUNCE, ANNOUNCE_BOTH_FAMILIES, ANNOUNCE_IPV6, COMMUNITIES, END_OF_RIB, END_OF_RIB_IPV6,
    TWO_PREFIXES, WITHDRAW, WITHDRAW_AND_ANNOUNCE, WITHDRAW_BOTH_FAMILIES, body,
};
use std::process::Abort;
use urpf_base::{Addr, Origin, Prefix};

/// The UPDATE withdraws just these prefixes, in this order.
fn withdraws(rt: &impl Abort, name: &str, update: &UpdateView, wanted: &[(Addr, u8)]) {
    let mut prefixes = update.withdrawn();
    for (addr, len) in wanted {
        assert_eq!(rt; prefixes.next(), Prefix::new(*addr, *len), "{name}");
    }
    assert_eq!(rt; prefixes.next(), None, "{name}");
}

/// The UPDATE announces just these prefixes, in this order.
fn announces(rt: &impl Abort, name: &str, update: &UpdateView, wanted: &[(Addr, u8)]) {
    let mut prefixes = update.announced();
    for (addr, len) in wanted {
        assert_eq!(rt; prefixes.next(), Prefix::new(*addr, *len), "{name}");
    }
    assert_eq!(rt; prefixes.next(), None, "{name}");
}

/// An UPDATE, whether the peer listed IPv6, and what the UPDATE withdraws and announces.
#[derive(Clone, Copy)]
struct Row {
    name: &'static str,
    message: &'static [u8],
    v6: bool,
    withdrawn: &'static [(Addr, u8)],
    announced: &'static [(Addr, u8)],
    origin: Origin,
}

/// 198.51.100.0/24.
const ROUTE: (Addr, u8) = (Addr::V4(0xC633_6400), 24);

/// 2001:db8::/32.
const WIDE: (Addr, u8) = (Addr::V6(0x2001_0DB8_0000_0000_0000_0000_0000_0000), 32);

const ROWS: [Row; 12] = [
    Row {
        name: "one route",
        message: &ANNOUNCE,
        v6: true,
        withdrawn: &[],
        announced: &[ROUTE],
        origin: Some(64501),
    },
    Row {
        name: "two routes",
        message: &TWO_PREFIXES,
        v6: true,
        withdrawn: &[],
        announced: &[(Addr::V4(0xC000_0201), 32), (Addr::V4(0xC633_6480), 25)],
        origin: Some(64501),
    },
    Row {
        name: "a route of IPv6",
        message: &ANNOUNCE_IPV6,
        v6: true,
        withdrawn: &[],
        announced: &[WIDE],
        origin: Some(64501),
    },
    Row {
        name: "a route of IPv6, which the peer did not list",
        message: &ANNOUNCE_IPV6,
        v6: false,
        withdrawn: &[],
        announced: &[],
        origin: Some(64501),
    },
    Row {
        name: "IPv4 announced before IPv6",
        message: &ANNOUNCE_BOTH_FAMILIES,
        v6: true,
        withdrawn: &[],
        announced: &[ROUTE, WIDE],
        origin: Some(64501),
    },
    Row {
        name: "optional attributes",
        message: &COMMUNITIES,
        v6: true,
        withdrawn: &[],
        announced: &[ROUTE],
        origin: Some(64501),
    },
    Row {
        name: "one withdrawn",
        message: &WITHDRAW,
        v6: true,
        withdrawn: &[ROUTE],
        announced: &[],
        origin: None,
    },
    Row {
        name: "withdrawn and announced",
        message: &WITHDRAW_AND_ANNOUNCE,
        v6: true,
        withdrawn: &[ROUTE],
        announced: &[ROUTE],
        origin: Some(64501),
    },
    Row {
        name: "IPv4 withdrawn before IPv6",
        message: &WITHDRAW_BOTH_FAMILIES,
        v6: true,
        withdrawn: &[ROUTE, WIDE],
        announced: &[],
        origin: None,
    },
    Row {
        name: "IPv6 withdrawn, which the peer did not list",
        message: &WITHDRAW_BOTH_FAMILIES,
        v6: false,
        withdrawn: &[ROUTE],
        announced: &[],
        origin: None,
    },
    Row {
        name: "the end of the routes of IPv4",
        message: &END_OF_RIB,
        v6: true,
        withdrawn: &[],
        announced: &[],
        origin: None,
    },
    Row {
        name: "the end of the routes of IPv6",
        message: &END_OF_RIB_IPV6,
        v6: true,
        withdrawn: &[],
        announced: &[],
        origin: None,
    },
];

/// The message of the row is read as the row says.
fn is_read(rt: &impl Abort, row: &Row) {
    assert!(rt; row.message.len() >= 19, "{}", row.name);
    let update = read(rt, body(row.message), Width::Four, row.v6).expect(rt, "no fault");
    withdraws(rt, row.name, &update, row.withdrawn);
    announces(rt, row.name, &update, row.announced);
    assert_eq!(rt; update.origin(), row.origin, "{}", row.name);
}

/// That each message is read as its row says.
fn are_read(rt: &impl Abort, rows: &[Row]) {
    for row in rows {
        is_read(rt, row);
    }
}

#[test]
fn routes_are_withdrawn_and_announced_in_their_order(rt: HostRuntime) {
    are_read(&rt, &ROWS);
}

/// A body that mentions no prefix.
#[derive(Clone, Copy)]
struct Empty {
    name: &'static str,
    body: &'static [u8],
}

const EMPTY: [Empty; 4] = [
    Empty {
        name: "the end of the routes of IPv6 with a length of two octets",
        body: b"\x00\x00\
            \x00\x07\
            \x90\x0F\x00\x03\x00\x02\x01",
    },
    Empty {
        name: "a type that is not known, with the optional flag",
        body: b"\x00\x00\
            \x00\x03\
            \x80\x63\x00",
    },
    Empty {
        name: "two next hops of IPv6 and no prefix, without ORIGIN",
        body: b"\x00\x00\
            \x00\x28\
            \x80\x0E\x25\x00\x02\x01\x20\
            \x20\x01\x0D\xB8\x00\x00\x00\x00\x00\x00\x00\x00\x00\x00\x00\x01\
            \xFE\x80\x00\x00\x00\x00\x00\x00\x00\x00\x00\x00\x00\x00\x00\x01\
            \x00",
    },
    Empty {
        name: "multicast of IPv6, which is passed over, without a next hop",
        body: b"\x00\x00\
            \x00\x06\
            \x80\x0E\x03\x00\x02\x02",
    },
];

/// That no body mentions a prefix.
fn mention_no_prefix(rt: &impl Abort, rows: &[Empty]) {
    for empty in rows {
        let update = read(rt, empty.body, Width::Four, true).expect(rt, "no fault");
        withdraws(rt, empty.name, &update, &[]);
        announces(rt, empty.name, &update, &[]);
        assert_eq!(rt; update.origin(), None, "{}", empty.name);
    }
}

#[test]
fn a_body_may_mention_no_prefix(rt: HostRuntime) {
    mention_no_prefix(&rt, &EMPTY);
}

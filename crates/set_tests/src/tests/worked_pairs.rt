//! Worked pairs with the cells that each drain answers, from RFC 8704, section 3.5, by hand.
use crate::tests::fed::{Fed, empty_fed};
use crate::tests::worked::{
    Change, Given, TEST_NET_1, TEST_NET_2, TEST_NET_3, add_all, drains, mask, prefix,
};
use rpf_plain::SetEngine;
use std::process::Abort;
use urpf_base::{Addr, Cell, Prefix};

fn adds(rt: &impl Abort, fed: &mut Fed, number: u32, asn: u32, new: bool) {
    let prefix = prefix(rt, number, 24);
    assert_eq!(rt; fed.add_pair(prefix, asn).expect(rt, "memory"), new);
}

fn removes(rt: &impl Abort, fed: &mut Fed, number: u32, asn: u32, there: bool) {
    let prefix = prefix(rt, number, 24);
    assert_eq!(rt; fed.remove_pair(&prefix, asn), there);
}

/// AS 64501 is heard on interface 0, AS 64502 on interface 1, and AS 64503 on the peer's interface 2
/// alone.
const ONE_ORIGIN_EACH: [Given; 3] = [
    (0, TEST_NET_2, 24, Some(64501)),
    (1, TEST_NET_3, 24, Some(64502)),
    (2, TEST_NET_1, 24, Some(64503)),
];

const BY_ROWS_ALONE: [Change; 3] = [
    (TEST_NET_1, 24, &[2], &[], false),
    (TEST_NET_2, 24, &[0], &[0], true),
    (TEST_NET_3, 24, &[1], &[1], true),
];

/// 10.0.0.0, of the addresses for private use (RFC 1918).
const PRIVATE: u32 = 0x0A00_0000;

/// Interface 0 alone has a row of AS 64501, and it is a customer's.
const GIVEN_TO_ITS_CUSTOMER: [Change; 1] = [(PRIVATE, 24, &[], &[0], true)];

const GONE: [Change; 1] = [(PRIVATE, 24, &[], &[], false)];

#[test]
fn a_pair_is_given_to_the_customer_that_has_a_row_of_its_as(rt: HostRuntime) {
    let mut fed = empty_fed(&rt);
    add_all(&rt, &mut fed, &ONE_ORIGIN_EACH);
    drains(&rt, &mut fed, &BY_ROWS_ALONE);
    adds(&rt, &mut fed, PRIVATE, 64501, true);
    drains(&rt, &mut fed, &GIVEN_TO_ITS_CUSTOMER);
    drains(&rt, &mut fed, &[]);
}

#[test]
fn a_pair_is_there_once(rt: HostRuntime) {
    let mut fed = empty_fed(&rt);
    add_all(&rt, &mut fed, &ONE_ORIGIN_EACH);
    drains(&rt, &mut fed, &BY_ROWS_ALONE);
    adds(&rt, &mut fed, PRIVATE, 64501, true);
    adds(&rt, &mut fed, PRIVATE, 64501, false);
    drains(&rt, &mut fed, &GIVEN_TO_ITS_CUSTOMER);
    removes(&rt, &mut fed, PRIVATE, 64502, false);
    drains(&rt, &mut fed, &[]);
    removes(&rt, &mut fed, PRIVATE, 64501, true);
    removes(&rt, &mut fed, PRIVATE, 64501, false);
    drains(&rt, &mut fed, &GONE);
    drains(&rt, &mut fed, &[]);
}

/// The peer's prefix has a pair of AS 64501, which interface 0 has: it is given to interface 0, and
/// AS 64501 is in Set A.
const PEERS_PREFIX_GIVEN: [Change; 1] = [(TEST_NET_1, 24, &[2], &[0], true)];

#[test]
fn a_pair_of_a_prefix_that_a_peer_has_is_given_too(rt: HostRuntime) {
    let mut fed = empty_fed(&rt);
    add_all(&rt, &mut fed, &ONE_ORIGIN_EACH);
    drains(&rt, &mut fed, &BY_ROWS_ALONE);
    adds(&rt, &mut fed, TEST_NET_1, 64501, true);
    drains(&rt, &mut fed, &PEERS_PREFIX_GIVEN);
}

/// Customer interface 1 has AS 64502, which the peer has too. That puts it into Set A, so that the
/// prefix of its pair is in Set Z, and the list of interface 1 has it, but not that of interface 0.
const HEARD_ON_A_PEER_TOO: [Given; 1] = [(2, TEST_NET_1, 24, Some(64502))];

const PEERS_ROW_TOO: [Change; 1] = [(TEST_NET_1, 24, &[2], &[1], true)];

const GIVEN_BY_SET_A: [Change; 1] = [(PRIVATE, 24, &[], &[1], true)];

#[test]
fn a_pair_of_an_as_in_set_a_is_in_set_z(rt: HostRuntime) {
    let mut fed = empty_fed(&rt);
    add_all(&rt, &mut fed, &ONE_ORIGIN_EACH);
    drains(&rt, &mut fed, &BY_ROWS_ALONE);
    add_all(&rt, &mut fed, &HEARD_ON_A_PEER_TOO);
    drains(&rt, &mut fed, &PEERS_ROW_TOO);
    adds(&rt, &mut fed, PRIVATE, 64502, true);
    drains(&rt, &mut fed, &GIVEN_BY_SET_A);
}

#[test]
fn a_pair_of_an_as_that_no_customer_has_adds_nothing(rt: HostRuntime) {
    let mut fed = empty_fed(&rt);
    add_all(&rt, &mut fed, &ONE_ORIGIN_EACH);
    drains(&rt, &mut fed, &BY_ROWS_ALONE);
    // The peer has AS 64503, and nobody has AS 64510 and AS 0.
    adds(&rt, &mut fed, PRIVATE, 64503, true);
    adds(&rt, &mut fed, PRIVATE, 64510, true);
    adds(&rt, &mut fed, PRIVATE, 0, true);
    adds(&rt, &mut fed, TEST_NET_2, 0, true);
    drains(&rt, &mut fed, &[]);
    adds(&rt, &mut fed, PRIVATE, 0, false);
    removes(&rt, &mut fed, PRIVATE, 0, true);
    drains(&rt, &mut fed, &[]);
}

/// The row that AS 64510 comes with.
const THE_AS_COMES: [Given; 1] = [(1, TEST_NET_3, 25, Some(64510))];

const WITH_ITS_PAIR: [Change; 2] = [
    (PRIVATE, 24, &[], &[1], true),
    (TEST_NET_3, 25, &[1], &[1], true),
];

const WITHOUT_ITS_ROW: [Change; 2] = [
    (PRIVATE, 24, &[], &[], false),
    (TEST_NET_3, 25, &[], &[], false),
];

#[test]
fn a_pair_waits_for_a_row_of_its_as(rt: HostRuntime) {
    let mut fed = empty_fed(&rt);
    add_all(&rt, &mut fed, &ONE_ORIGIN_EACH);
    adds(&rt, &mut fed, PRIVATE, 64510, true);
    drains(&rt, &mut fed, &BY_ROWS_ALONE);
    add_all(&rt, &mut fed, &THE_AS_COMES);
    drains(&rt, &mut fed, &WITH_ITS_PAIR);
    fed.take_last();
    drains(&rt, &mut fed, &WITHOUT_ITS_ROW);
}

#[test]
fn a_pair_of_ipv6_is_given_by_a_row_of_ipv4(rt: HostRuntime) {
    let mut fed = empty_fed(&rt);
    add_all(&rt, &mut fed, &ONE_ORIGIN_EACH);
    drains(&rt, &mut fed, &BY_ROWS_ALONE);
    // 2001:db8::/32, of the addresses for documentation (RFC 3849).
    let prefix = Prefix::new(Addr::V6(0x2001_0DB8 << 96), 32).expect(&rt, "a prefix");
    assert!(&rt; fed.add_pair(prefix, 64502).expect(&rt, "memory"));
    let changes = fed.engine.drain_changes().expect(&rt, "memory");
    assert_eq!(&rt; changes.items().len(), 1);
    let given = Cell {
        f: mask(&rt, &[]),
        a: mask(&rt, &[1]),
        z: true,
    };
    assert_eq!(&rt; changes.items()[0].prefix, prefix);
    assert_eq!(&rt; changes.items()[0].cell, given);
    assert_eq!(&rt; fed.engine.cell(&prefix), given);
}

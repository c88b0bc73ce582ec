//! Worked rows with the cells that each drain answers, from RFC 8704, sections 3.1.1 and 3.4, by
//! hand.
use crate::tests::fed::{Fed, empty_fed};
use rpf_plain::{Row, SetEngine};
use std::process::Abort;
use urpf_base::{Addr, Cell, CellChange, IfaceId, Mask, Prefix, Role};

/// 198.51.100.0, 203.0.113.0 and 192.0.2.0, of the addresses for documentation (RFC 5737).
pub const TEST_NET_2: u32 = 0xC633_6400;

pub const TEST_NET_3: u32 = 0xCB00_7100;

pub const TEST_NET_1: u32 = 0xC000_0200;

/// A row: interface, prefix of IPv4 with its length, and origin.
pub type Given = (u16, u32, u8, Option<u32>);

/// A change: prefix of IPv4 with its length, `f`, `a` and `z` of its cell.
pub type Change = (u32, u8, &'static [u16], &'static [u16], bool);

pub fn iface(rt: &impl Abort, number: u16) -> IfaceId {
    IfaceId::new(number).expect(rt, "an interface")
}

pub fn prefix(rt: &impl Abort, number: u32, len: u8) -> Prefix {
    Prefix::new(Addr::V4(number), len).expect(rt, "a prefix")
}

pub fn mask(rt: &impl Abort, numbers: &[u16]) -> Mask {
    let mut mask = Mask::empty();
    for number in numbers {
        mask = mask.with(iface(rt, *number));
    }
    mask
}

fn change(rt: &impl Abort, given: &Change) -> CellChange {
    let cell = Cell {
        f: mask(rt, given.2),
        a: mask(rt, given.3),
        z: given.4,
    };
    CellChange {
        prefix: prefix(rt, given.0, given.1),
        cell,
    }
}

pub fn add_all(rt: &impl Abort, fed: &mut Fed, rows: &[Given]) {
    for row in rows {
        let row = Row {
            prefix: prefix(rt, row.1, row.2),
            iface: iface(rt, row.0),
            origin: row.3,
        };
        fed.add(&row).expect(rt, "memory");
    }
}

/// Drains, and compares the changes with those that are wanted.
pub fn drains(rt: &impl Abort, fed: &mut Fed, wanted: &[Change]) {
    let changes = fed.engine.drain_changes().expect(rt, "memory");
    assert_eq!(rt; changes.items().len(), wanted.len());
    for (change_now, given) in changes.items().iter().zip(wanted) {
        assert_eq!(rt; *change_now, change(rt, given));
        assert_eq!(rt; fed.engine.cell(&change_now.prefix), change_now.cell);
    }
}

/// AS 64501 is heard on interface 0 and behind the provider, AS 64502 on interface 1 alone. Both
/// originate 198.51.100.0/24.
const ONE_PREFIX_ON_TWO: [Given; 3] = [
    (0, TEST_NET_2, 24, Some(64501)),
    (1, TEST_NET_2, 24, Some(64502)),
    (3, TEST_NET_3, 24, Some(64501)),
];

/// Both interfaces have a prefix of AS 64501, and so its prefix behind the provider.
const BOTH_HAVE_ALL: [Change; 2] = [
    (TEST_NET_2, 24, &[0, 1], &[0, 1], true),
    (TEST_NET_3, 24, &[3], &[0, 1], true),
];

#[test]
fn an_origin_on_two_interfaces_is_listed_on_both(rt: HostRuntime) {
    let mut fed = empty_fed(&rt);
    add_all(&rt, &mut fed, &ONE_PREFIX_ON_TWO);
    drains(&rt, &mut fed, &BOTH_HAVE_ALL);
    drains(&rt, &mut fed, &[]);
}

/// AS 64501 is heard on interface 0 by its last row alone, which is there twice.
const AN_ORIGIN_THAT_LEAVES: [Given; 4] = [
    (1, TEST_NET_1, 24, Some(64502)),
    (3, TEST_NET_3, 24, Some(64501)),
    (0, TEST_NET_2, 24, Some(64501)),
    (0, TEST_NET_2, 24, Some(64501)),
];

const BEFORE_IT_LEAVES: [Change; 3] = [
    (TEST_NET_1, 24, &[1], &[1], true),
    (TEST_NET_2, 24, &[0], &[0], true),
    (TEST_NET_3, 24, &[3], &[0], true),
];

const ONCE_IT_LEFT: [Change; 2] = [
    (TEST_NET_2, 24, &[], &[], false),
    (TEST_NET_3, 24, &[3], &[], false),
];

#[test]
fn an_origin_leaves_set_a_with_its_last_row(rt: HostRuntime) {
    let mut fed = empty_fed(&rt);
    add_all(&rt, &mut fed, &AN_ORIGIN_THAT_LEAVES);
    drains(&rt, &mut fed, &BEFORE_IT_LEAVES);
    fed.take_last();
    drains(&rt, &mut fed, &[]);
    fed.take_last();
    drains(&rt, &mut fed, &ONCE_IT_LEFT);
}

/// The path of the first row ends in a set of ASes, so it has no origin (RFC 4271, section 4.3).
/// The second is a default route.
const WITHOUT_ORIGIN: [Given; 3] = [
    (0, TEST_NET_2, 24, None),
    (3, 0, 0, Some(64499)),
    (3, TEST_NET_3, 24, None),
];

/// No list by Algorithm A has them, and Set Z has what a customer sent.
const FEASIBLE_ALONE: [Change; 3] = [
    (0, 0, &[3], &[], false),
    (TEST_NET_2, 24, &[0], &[], true),
    (TEST_NET_3, 24, &[3], &[], false),
];

#[test]
fn a_row_without_origin_is_in_no_list_by_algorithm_a(rt: HostRuntime) {
    let mut fed = empty_fed(&rt);
    add_all(&rt, &mut fed, &WITHOUT_ORIGIN);
    drains(&rt, &mut fed, &FEASIBLE_ALONE);
}

/// AS 64496 is heard on interface 0 and behind the provider, AS 64497 behind the provider alone.
const BEHIND_A_PROVIDER: [Given; 3] = [
    (0, TEST_NET_1, 24, Some(64496)),
    (3, TEST_NET_2, 24, Some(64496)),
    (3, TEST_NET_3, 24, Some(64497)),
];

const AS_A_PROVIDER: [Change; 3] = [
    (TEST_NET_1, 24, &[0], &[0], true),
    (TEST_NET_2, 24, &[3], &[0], true),
    (TEST_NET_3, 24, &[3], &[], false),
];

const AS_A_CUSTOMER: [Change; 3] = [
    (TEST_NET_1, 24, &[0], &[0, 3], true),
    (TEST_NET_2, 24, &[3], &[0, 3], true),
    (TEST_NET_3, 24, &[3], &[3], true),
];

#[test]
fn a_role_changes_the_cells_of_rows_that_stay(rt: HostRuntime) {
    let mut fed = empty_fed(&rt);
    add_all(&rt, &mut fed, &BEHIND_A_PROVIDER);
    drains(&rt, &mut fed, &AS_A_PROVIDER);
    fed.set_role(iface(&rt, 3), Role::Customer)
        .expect(&rt, "memory");
    drains(&rt, &mut fed, &AS_A_CUSTOMER);
    fed.set_role(iface(&rt, 3), Role::Peer)
        .expect(&rt, "memory");
    drains(&rt, &mut fed, &AS_A_PROVIDER);
}

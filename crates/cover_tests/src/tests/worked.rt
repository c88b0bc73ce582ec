//! Worked publications with the verdicts of a snapshot, by hand from the modes (RFC 8704, section 3;
//! RFC 3704, section 2).
use crate::tests::asked::passes;
use crate::tests::made::{
    DOCUMENTATION, Given, TEST_NET_1, TEST_NET_2, TEST_NET_3, batch, change, iface, seven,
};
use cover_table::{CoverTable, Snapshot};
use router_config::Edit;
use std::process::Abort;
use urpf_base::{Addr, Mode, Verdict};

/// What a snapshot is asked, and what it answers: a name, an interface, a source and the verdict.
type Asked = (&'static str, u16, Option<Addr>, Verdict);

const IN_1: Option<Addr> = Some(Addr::V4(TEST_NET_1 + 7));

const IN_2: Option<Addr> = Some(Addr::V4(TEST_NET_2 + 7));

const IN_3: Option<Addr> = Some(Addr::V4(TEST_NET_3 + 7));

const IN_V6: Option<Addr> = Some(Addr::V6(DOCUMENTATION + 1));

/// The default route is heard on interface 4, 198.51.100.0/24 on interface 1 with a list of
/// Algorithm A on interface 0, and 203.0.113.0/24 on interface 3.
const FIRST: [Given; 3] = [
    (0, 0, &[4], &[], false),
    (TEST_NET_2, 24, &[1], &[0], true),
    (TEST_NET_3, 24, &[3], &[], false),
];

/// 198.51.100.0/24 is heard no more, and 203.0.113.0/24 on interface 1 with a list on interface 0.
const SECOND: [Given; 2] = [
    (TEST_NET_2, 24, &[], &[], false),
    (TEST_NET_3, 24, &[1], &[0], false),
];

const BEFORE: &[Asked] = &[
    ("efp-a of no cell", 0, IN_2, Verdict::Drop),
    ("loose of no cell", 3, IN_3, Verdict::Drop),
    ("off of no cell", 5, IN_1, Verdict::Pass),
    ("no interface", 9, IN_2, Verdict::NoIface),
];

const AFTER_FIRST: &[Asked] = &[
    ("efp-a by its list", 0, IN_2, Verdict::Pass),
    ("efp-a off its list", 0, IN_3, Verdict::Drop),
    ("feasible by its route", 1, IN_2, Verdict::Pass),
    ("feasible by another's route", 1, IN_3, Verdict::Drop),
    ("efp-b by set Z", 2, IN_2, Verdict::Pass),
    ("efp-b off set Z", 2, IN_3, Verdict::Drop),
    ("loose by the default route", 3, IN_1, Verdict::Pass),
    ("loose of the other family", 3, IN_V6, Verdict::Drop),
    ("loose without the default route", 4, IN_1, Verdict::Drop),
    ("loose without it by a route", 4, IN_3, Verdict::Pass),
    ("off of the other family", 5, IN_V6, Verdict::Pass),
    ("efp-a of a provider is loose", 6, IN_3, Verdict::Pass),
    ("no source", 0, None, Verdict::BadHead),
    ("no source with the mode off", 5, None, Verdict::BadHead),
    ("no interface", 7, IN_2, Verdict::NoIface),
    ("no interface, no source", 9, None, Verdict::NoIface),
    ("a number past all interfaces", 64, IN_2, Verdict::NoIface),
    ("the greatest number", 65535, IN_2, Verdict::NoIface),
];

const AFTER_SECOND: &[Asked] = &[
    ("efp-a off its list now", 0, IN_2, Verdict::Drop),
    ("efp-a by its list now", 0, IN_3, Verdict::Pass),
    ("feasible by no route now", 1, IN_2, Verdict::Drop),
    ("feasible by its route now", 1, IN_3, Verdict::Pass),
    ("efp-b off set Z now", 2, IN_2, Verdict::Drop),
    ("loose by the default route still", 3, IN_2, Verdict::Pass),
    ("off no more", 5, IN_V6, Verdict::Drop),
];

/// The snapshot answers each question as is wanted.
fn answers(rt: &impl Abort, snapshot: &Snapshot, rows: &[Asked]) {
    for row in rows {
        assert_eq!(rt; snapshot.check(row.1, row.2), row.3, "{}", row.0);
    }
}

#[test]
fn a_snapshot_judges_by_the_batches_that_it_took_over(rt: HostRuntime) {
    let mut snapshot = Snapshot::new(rt.alloc(), seven(&rt));
    assert_eq!(rt; snapshot.number(), 0);
    answers(&rt, &snapshot, BEFORE);
    let first = batch(&rt, 1, seven(&rt), &FIRST);
    snapshot.absorb(&first).expect(&rt, "memory");
    assert_eq!(rt; snapshot.number(), 1);
    answers(&rt, &snapshot, AFTER_FIRST);
    let mut kinds = seven(&rt);
    kinds.apply(&Edit::Mode(iface(&rt, 5), Mode::Feasible));
    let second = batch(&rt, 2, kinds, &SECOND);
    snapshot.absorb(&second).expect(&rt, "memory");
    assert_eq!(rt; snapshot.number(), 2);
    assert!(rt; snapshot.kinds().same(&second.kinds));
    answers(&rt, &snapshot, AFTER_SECOND);
}

#[test]
fn a_table_takes_cells_into_the_room_that_was_made(rt: HostRuntime) {
    let mut table = CoverTable::new(rt.alloc());
    table.reserve(2).expect(&rt, "memory");
    table.absorb(&change(&rt, &FIRST[1]));
    table.absorb(&change(&rt, &FIRST[2]));
    let one = iface(&rt, 1);
    let three = iface(&rt, 3);
    let source = Addr::V4(TEST_NET_3 + 7);
    assert!(rt; passes(&table, three, Mode::Feasible, &source));
    assert!(rt; !passes(&table, one, Mode::Feasible, &source));
    assert!(rt; passes(&table, one, Mode::Loose, &source));
    assert!(rt; !passes(&table, one, Mode::EfpB, &source));
}

/// What may be shared by threads, and move to another one.
fn crosses_threads<T: Send + Sync>(_value: &T) -> bool {
    true
}

#[test]
fn a_snapshot_and_a_batch_may_cross_threads(rt: HostRuntime) {
    let snapshot = Snapshot::new(rt.alloc(), seven(&rt));
    let first = batch(&rt, 1, seven(&rt), &FIRST);
    assert!(rt; crosses_threads(&snapshot) && crosses_threads(&first));
}

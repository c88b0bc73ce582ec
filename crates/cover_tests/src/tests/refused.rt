//! A batch that is refused changes nothing, and the same batch is taken over where memory is there
//! again. With no allocation refused, this is one run with ample memory; `rt try --test
//! --fail-alloc N` refuses the Nth.
use crate::tests::asked::passes;
use crate::tests::made::{Given, TEST_NET_2, TEST_NET_3, batch, iface, seven};
use cover_table::{Batch, CoverTable, Snapshot};
use std::process::Abort;
use urpf_base::{Addr, Mode, Verdict};

/// One full session: its one route was heard on interface 0.
const ONE_ROUTE: [Given; 1] = [(TEST_NET_2, 24, &[0], &[0], true)];

const ANOTHER: [Given; 2] = [
    (TEST_NET_2, 24, &[], &[], false),
    (TEST_NET_3, 24, &[0], &[0], true),
];

/// The snapshot judges the sources of both networks on interface 0 so.
fn judges(rt: &impl Abort, snapshot: &Snapshot, number: u64, wanted: (Verdict, Verdict)) {
    assert_eq!(rt; snapshot.number(), number);
    assert_eq!(rt; snapshot.check(0, Some(Addr::V4(TEST_NET_2 + 1))), wanted.0);
    assert_eq!(rt; snapshot.check(0, Some(Addr::V4(TEST_NET_3 + 1))), wanted.1);
}

/// Takes the batch over. Where it is refused the snapshot judges as before.
fn take(rt: &impl Abort, snapshot: &mut Snapshot, batch: &Batch, before: (Verdict, Verdict)) {
    let number = snapshot.number();
    if snapshot.absorb(batch).is_err() {
        judges(rt, snapshot, number, before);
        snapshot.absorb(batch).expect(rt, "memory is there again");
    }
}

#[test]
fn a_refused_batch_changes_nothing(rt: HostRuntime) {
    let mut snapshot = Snapshot::new(rt.alloc(), seven(&rt));
    let first = batch(&rt, 1, seven(&rt), &ONE_ROUTE);
    let second = batch(&rt, 2, seven(&rt), &ANOTHER);
    let nothing = (Verdict::Drop, Verdict::Drop);
    take(&rt, &mut snapshot, &first, nothing);
    judges(&rt, &snapshot, 1, (Verdict::Pass, Verdict::Drop));
    take(&rt, &mut snapshot, &second, (Verdict::Pass, Verdict::Drop));
    judges(&rt, &snapshot, 2, (Verdict::Drop, Verdict::Pass));
}

#[test]
fn room_that_is_refused_changes_nothing(rt: HostRuntime) {
    let mut table = CoverTable::new(rt.alloc());
    if table.reserve(1).is_err() {
        table.reserve(1).expect(&rt, "memory is there again");
    }
    assert!(rt; table.reserve(usize::MAX).is_err());
    assert!(rt; !passes(&table, iface(&rt, 0), Mode::Loose, &Addr::V4(TEST_NET_2)));
}

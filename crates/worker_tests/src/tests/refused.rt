//! Calls that want memory leave what was there, and the same call succeeds where memory is there
//! again. With no allocation refused, this is one run with ample memory; `rt try --test
//! --fail-alloc N` refuses the Nth, and `bench/failed-calls` each in turn.
ghost use Rattle.std.specs.Prelude.{◌≤◌, ◌≡◌};

use crate::tests::made::{WORKER, row, source, sure, work};
use crate::tests::publishers::{Story, tell};
use epoch_publish::SurePass;
use feed_io::{MemSource, NoGate};
use forward_worker::{CheckRows, Desk, Stop, WorkerEnd, WorkerRound};
use std::process::Abort;
use urpf_base::Verdict;

#[test]
fn a_refused_publication_leaves_what_is_published(rt: HostRuntime) {
    if !tell(&rt, Story::Refused) {
        assert!(rt; tell(&rt, Story::Refused), "memory is there again");
    }
}

/// Works on to the end of the source.
fn work_on(
    rt: &(impl Abort + AllocGlobal),
    pass: &mut SurePass,
    desk: &mut Desk,
    packets: &mut MemSource,
) -> WorkerRound
    requires { (desk.old.place ≤ desk.old.taken) × (desk.old.taken ≤ desk.old.limit) }
    ensures { (desk.new.place ≤ desk.new.taken) × (desk.new.taken ≤ desk.new.limit) }
{
    work(rt, pass, desk, packets, Stop::End, &NoGate)
}

#[test]
fn rows_that_were_made_stand(rt: HostRuntime) {
    let mut packets = source(&rt, "PPPPPPPPPPPP", 0);
    let mut pass = sure(&rt);
    let mut desk = Desk::new(WORKER, 99);
    let first = work_on(&rt, &mut pass, &mut desk, &mut packets);
    let rows = first.rows.items();
    assert_eq!(rt; rows.len() as u64, desk.place);
    if first.outcome != WorkerEnd::End {
        assert_eq!(rt; first.outcome, WorkerEnd::OutOfMemory);
        let again = work_on(&rt, &mut pass, &mut desk, &mut packets);
        assert_eq!(rt; again.outcome, WorkerEnd::End);
    }
    assert_eq!(rt; desk.place, 12);
}

#[test]
fn a_list_takes_a_row_in_or_is_as_before(rt: HostRuntime) {
    let mut rows = CheckRows::new(rt.alloc());
    let one = row(1, Some((0, Verdict::Drop)));
    if rows.push(one).is_err() {
        assert_eq!(rt; rows.items().len(), 0);
        rows.push(one).expect(&rt, "memory is there again");
    }
    assert_eq!(rt; rows.items().len(), 1);
    assert_eq!(rt; rows.items().first().copied(), Some(one));
}

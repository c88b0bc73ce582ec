//! What the gate is told, and rows without an answer.
use crate::tests::made::{Calls, WORKER, row, source, sure, work};
use epoch_publish::NoPass;
use forward_worker::{Desk, Stop, WorkerEnd};
use urpf_base::Verdict;

#[test]
fn the_gate_is_told_before_and_after_each_check(rt: HostRuntime) {
    let mut packets = source(&rt, "PMP", 0);
    let mut desk = Desk::new(WORKER, 9);
    let gate = Calls::new();
    let round = work(
        &rt,
        &mut sure(&rt),
        &mut desk,
        &mut packets,
        Stop::End,
        &gate,
    );
    assert_eq!(rt; round.outcome, WorkerEnd::End);
    assert_eq!(rt; gate.told(), 131_231_132_232);
}

#[test]
fn a_pass_that_refuses_is_asked_once(rt: HostRuntime) {
    let mut packets = source(&rt, "PP", 0);
    let mut desk = Desk::new(WORKER, 9);
    let gate = Calls::new();
    let round = work(
        &rt,
        &mut NoPass::new(),
        &mut desk,
        &mut packets,
        Stop::End,
        &gate,
    );
    assert_eq!(rt; round.outcome, WorkerEnd::End);
    let rows = round.rows.items();
    assert_eq!(rt; rows.len(), 2);
    assert_eq!(rt; rows.first().copied(), Some(row(1, None)));
    assert_eq!(rt; rows.last().copied(), Some(row(2, None)));
    assert_eq!(rt; gate.told(), 131_231);
}

#[test]
fn a_limit_of_one_gives_one_row(rt: HostRuntime) {
    let mut packets = source(&rt, "PP", 0);
    let mut desk = Desk::new(WORKER, 1);
    let gate = Calls::new();
    let round = work(
        &rt,
        &mut sure(&rt),
        &mut desk,
        &mut packets,
        Stop::End,
        &gate,
    );
    assert_eq!(rt; round.outcome, WorkerEnd::Limit);
    let rows = round.rows.items();
    assert_eq!(rt; rows.len(), 1);
    assert_eq!(rt;
        rows.first().copied(),
        Some(row(1, Some((0, Verdict::Drop))))
    );
    assert_eq!(rt; gate.told(), 131_231);
}

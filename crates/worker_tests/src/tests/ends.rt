//! How rounds end, over a stand-in for a pass.
use crate::tests::made::{WORKER, row, source, sure, work};
use crate::tests::publishers::{Story, tell, works_by_the_opening};
use feed_io::NoGate;
use forward_worker::{Desk, Stop, WorkerEnd};
use std::process::Abort;
use urpf_base::Verdict;

/// The pieces of a source, where the round stops, the limit of the desk, which read fails, how the
/// round ends, how many rows it has, and how many records were taken.
type Round = (&'static str, Stop, u64, u64, WorkerEnd, usize, u64);

const ROUNDS: [Round; 9] = [
    ("PMP", Stop::Marker, 9, 0, WorkerEnd::Marker, 1, 2),
    ("PMP", Stop::End, 9, 0, WorkerEnd::End, 2, 3),
    ("", Stop::Marker, 9, 0, WorkerEnd::End, 0, 0),
    ("PP", Stop::End, 1, 0, WorkerEnd::Limit, 1, 1),
    ("MP", Stop::End, 1, 0, WorkerEnd::Limit, 0, 1),
    ("", Stop::End, 0, 0, WorkerEnd::Limit, 0, 0),
    ("PX", Stop::End, 9, 0, WorkerEnd::Bad, 1, 1),
    ("PC", Stop::Marker, 9, 0, WorkerEnd::Bad, 1, 1),
    // A record is read in three calls: its first octet, the numbers, and the packet.
    ("PP", Stop::End, 9, 5, WorkerEnd::Failed, 1, 1),
];

/// That a round ends so, and each of its rows has its place and is answered.
fn ends_so(rt: &(impl Abort + AllocGlobal), wanted: &Round) {
    let (pieces, stop, limit, fails, outcome, rows, taken) = *wanted;
    let mut packets = source(rt, pieces, fails);
    let mut desk = Desk::new(WORKER, limit);
    let round = work(rt, &mut sure(rt), &mut desk, &mut packets, stop, &NoGate);
    assert_eq!(rt; round.outcome, outcome);
    assert_eq!(rt; round.rows.items().len(), rows);
    assert_eq!(rt; desk.taken, taken);
    let mut place = 0u64;
    for made in round.rows.items() {
        place = place.wrapping_add(1);
        assert_eq!(rt; *made, row(place, Some((0, Verdict::Drop))));
    }
}

/// That each round ends so.
fn end_so(rt: &(impl Abort + AllocGlobal), rounds: &[Round]) {
    for wanted in rounds {
        ends_so(rt, wanted);
    }
}

#[test]
fn a_round_ends_by_what_comes_next(rt: HostRuntime) {
    end_so(&rt, &ROUNDS);
}

#[test]
fn the_next_round_begins_behind_the_marker(rt: HostRuntime) {
    let mut packets = source(&rt, "PMPP", 0);
    let mut desk = Desk::new(WORKER, 9);
    let mut pass = sure(&rt);
    let first = work(
        &rt,
        &mut pass,
        &mut desk,
        &mut packets,
        Stop::Marker,
        &NoGate,
    );
    assert_eq!(rt; first.outcome, WorkerEnd::Marker);
    let second = work(
        &rt,
        &mut pass,
        &mut desk,
        &mut packets,
        Stop::Marker,
        &NoGate,
    );
    assert_eq!(rt; second.outcome, WorkerEnd::End);
    let rows = second.rows.items();
    assert_eq!(rt; rows.len(), 2);
    assert_eq!(rt;
        rows.last().copied(),
        Some(row(3, Some((0, Verdict::Drop))))
    );
    let third = work(&rt, &mut pass, &mut desk, &mut packets, Stop::End, &NoGate);
    assert_eq!(rt;
        (third.outcome, third.rows.items().len()),
        (WorkerEnd::End, 0)
    );
}

#[test]
fn a_pass_and_its_stand_in_work_alike(rt: HostRuntime) {
    works_by_the_opening(&rt, &mut sure(&rt));
    assert!(rt; tell(&rt, Story::Worked), "a publisher is started");
}

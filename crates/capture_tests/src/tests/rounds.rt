//! Rounds of work over captures.
ghost use Rattle.std.specs.Prelude.{◌≤◌};

use super::made::{ETHERNET, LITTLE, OF_34, PACKET, capture};
use epoch_publish::SurePass;
use feed_io::{NoGate, PacketSource};
use forward_worker::{CheckRow, Desk, Stop, WorkerEnd, WorkerRound, work_round};
use router_config::read_config;
use std::process::Abort;
use urpf_base::{Addr, Verdict};

/// One interface, of a customer.
const ONE: &str = r#"
interface = [{number = 0, role = "customer", mode = "feasible"}]
session = [{interface = 0, peer_as = 64501}]
"#;

/// The number of the worker.
const WORKER: u32 = 1;

/// A round of work to the end of the packets, before the first publication.
pub fn round<P: PacketSource>(rt: &(impl Abort + AllocGlobal), packets: &mut P) -> WorkerRound {
    let config = read_config(rt.alloc(), ONE.as_bytes()).expect(rt, "a configuration");
    let kinds = config.kinds().expect(rt, "memory");
    let mut pass = SurePass::new(rt.alloc(), kinds);
    let mut desk = Desk::new(WORKER, 1_000);
    work_round(
        rt.alloc(),
        &mut pass,
        &mut desk,
        packets,
        Stop::End,
        &NoGate,
    )
}

/// The row of the packet at this place, from 198.51.100.9, of the addresses for documentation
/// (RFC 5737).
fn row(place: u64) -> CheckRow {
    CheckRow {
        worker: WORKER,
        place,
        iface: 0,
        source: Some(Addr::V4(0xC633_6409)),
        answer: Some((0, Verdict::Drop)),
    }
}

#[test]
fn a_capture_is_worked_off_to_its_end(rt: HostRuntime) {
    let mut packets = capture(&rt, &[LITTLE, OF_34, ETHERNET, PACKET]);
    let round = round(&rt, &mut packets);
    assert_eq!(rt; round.outcome, WorkerEnd::End);
    assert_eq!(rt; round.rows.items().len(), 1);
    assert_eq!(rt; round.rows.items().first().copied(), Some(row(1)));
}

#[test]
fn the_rows_before_a_break_stand(rt: HostRuntime) {
    let frame = [LITTLE, OF_34, ETHERNET, PACKET, OF_34, ETHERNET, "45000014"];
    let round = round(&rt, &mut capture(&rt, &frame));
    assert_eq!(rt; round.outcome, WorkerEnd::Failed);
    assert_eq!(rt; round.rows.items().len(), 1);
    assert_eq!(rt; round.rows.items().first().copied(), Some(row(1)));
}

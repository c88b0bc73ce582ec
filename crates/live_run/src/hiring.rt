//! Workers are made of their packets before a run, and give them back behind it.
ghost use Rattle.std.specs.Prelude.{◌≡◌, ◌≤◌, [], IfOk, OnErr, map, vec_capacity, vec_len};
ghost use Rattle.std.specs.List.{AllByRecursion};
ghost use Rattle.live_rounds.specs.Seats.{identity_of, list_of, opening_of};
ghost use Rattle.live_rounds.specs.Stations.{IsReady, IsTold, station_of};
ghost use Rattle.live_run.specs.Hiring.{AreNew, SeesNone};

use epoch_publish::{Naming, NoPass, Passes};
use feed_io::PacketSource;
use live_rounds::{Seat, Worker};
use std::alloc::Global;
use urpf_base::OutOfMemory;

/// Makes a worker of the packets at each place, with a pass as long as there are some. The list of
/// packets is empty then, and keeps its room; where memory is refused it is as it was.
pub(crate) fn hire<J: Naming, P: PacketSource + Drop>(
    alloc: Global,
    passes: &mut Passes<J>,
    packets: &mut Vec<P>,
) -> Result<Vec<Worker<Seat<J>, P>>, OutOfMemory>
    requires few { vec_len packets.old ≤ 32 }
    requires fresh { AllByRecursion (SeesNone J.opening) passes.old }
    ensures packets { IfOk result (λ workers. map (λ w. w.packets) workers.items ≡ packets.old.items) }
    ensures new { IfOk result (λ workers. AreNew 0 (map (station_of P.left) workers.items)) }
    ensures ready { IfOk result (λ workers. AllByRecursion
        (IsReady identity_of opening_of list_of P.left J.opening []) workers.items) }
    ensures room { IfOk result (λ workers. (packets.new.items ≡ []) × (vec_len workers ≤ vec_capacity packets.new)) }
    ensures many { IfOk result (λ workers. vec_len workers ≡ vec_len packets.old) }
    ensures refused { OnErr result (packets.new.items ≡ packets.old.items) }
{
    let Ok(mut workers) = Vec::with_capacity(alloc, packets.len()) else {
        return Err(OutOfMemory);
    };
    packets.reverse();
    let mut number: u32 = 0;
    while let Some(source) = packets.pop() {
        let worker = Worker::new(alloc, number, seat(passes), source);
        workers.push_reserved(worker);
        number += 1;
    }
    Ok(workers)
}

/// The seat of the next worker.
fn seat<J: Naming>(passes: &mut Passes<J>) -> Seat<J>
    requires fresh { AllByRecursion (SeesNone J.opening) passes.old }
    ensures none { IsTold (identity_of result) (opening_of result) (list_of result) J.opening [] }
    ensures fresh { AllByRecursion (SeesNone J.opening) passes.new }
{
    match passes.pop() {
        Some(pass) => Seat::Seated(pass),
        None => Seat::Standing(NoPass::new()),
    }
}

/// Puts the packets of each worker back into their place of the list, which is empty and has room.
pub(crate) fn dismiss<J: Naming, P: PacketSource + Drop>(
    mut workers: Vec<Worker<Seat<J>, P>>,
    packets: &mut Vec<P>,
)
    requires empty { packets.old.items ≡ [] }
    requires room { vec_len workers ≤ vec_capacity packets.old }
    ensures packets { packets.new.items ≡ map (λ w. w.packets) workers.items }
    ensures many { vec_len packets.new ≡ vec_len workers }
{
    while let Some(worker) = workers.pop() {
        packets.push_reserved(worker.packets);
    }
    packets.reverse();
}

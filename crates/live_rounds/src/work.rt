//! All workers work a round, each in a thread of its own.
ghost use Rattle.std.specs.Prelude.{◌≡◌, length};
ghost use Rattle.std.specs.List.{All, AllZip};
ghost use Rattle.live_rounds.specs.Stations.{IsFit, Worked};

use crate::worker::Worker;
use epoch_publish::Checker;
use feed_io::{Gate, PacketSource};
use forward_worker::{Stop, work_round};
use std::alloc::Global;
use std::thread;
use std::thread::Threads;

/// The most threads that work at a time: as many as there may be workers.
const THREADS: usize = 32;

/// All workers work a round.
pub(crate) fn work_all<
    R: Threads + Sync,
    S: Checker + Send,
    P: PacketSource + Send,
    G: Gate + Sync,
>(rt: &R, alloc: Global, workers: &mut [Worker<S, P>], stop: Stop, gate: &G)
    requires fit { All (λ w. IsFit w) workers.old }
    ensures { AllZip (Worked S.identity S.opening S.list P.left stop) workers.old workers.new }
{
    thread::for_each_mut(
        rt,
        workers,
        THREADS,
        &|_, worker|
            requires { IsFit worker.now }
            ensures { Worked S.identity S.opening S.list P.left stop worker.entry.now worker.exit.now }
        { work(alloc, worker, stop, gate) },
    );
}

/// A worker works a round.
fn work<S: Checker, P: PacketSource, G: Gate>(
    alloc: Global,
    worker: &mut Worker<S, P>,
    stop: Stop,
    gate: &G,
)
    requires { IsFit worker.old }
    ensures { Worked S.identity S.opening S.list P.left stop worker.old worker.new }
{
    let round = work_round(
        alloc,
        &mut worker.place,
        &mut worker.desk,
        &mut worker.packets,
        stop,
        gate,
    );
    worker.rows = round.rows;
    worker.outcome = round.outcome;
}

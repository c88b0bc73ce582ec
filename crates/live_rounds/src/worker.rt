//! A worker, with what it keeps from round to round.
ghost use Rattle.std.specs.Prelude.{◌≡◌, false};

use forward_worker::{CheckRows, Desk, WorkerEnd};
use std::alloc::Global;

/// The most packets and markers that are read of one stream.
pub const RECORD_LIMIT: u64 = 1_000_000_000;

/// A worker: who checks its packets, what it keeps, where it reads, and the rows of its last round.
#[derive(Drop)]
pub struct Worker<S, P> {
    /// Who checks.
    pub place: S,
    /// What is kept between rounds.
    pub desk: Desk,
    /// Where packets are read.
    pub packets: P,
    /// The rows of the last round.
    pub rows: CheckRows,
    /// How the last round ended.
    pub outcome: WorkerEnd,
    /// Whether the checker is known to have been told of all that was published.
    pub known: bool,
}

impl<S, P> Worker<S, P> {
    /// A worker of this number that read nothing.
    pub fn new(alloc: Global, number: u32, place: S, packets: P) -> Worker<S, P>
        ensures place { result.place ≡ place }
        ensures packets { result.packets ≡ packets }
        ensures worker { result.desk.worker ≡ number }
        ensures none { (result.desk.place ≡ 0) × (result.desk.taken ≡ 0) }
        ensures limit { result.desk.limit ≡ RECORD_LIMIT }
        ensures ended { result.desk.ended ≡ false }
    {
        Worker {
            place,
            desk: Desk::new(number, RECORD_LIMIT),
            packets,
            rows: CheckRows::new(alloc),
            outcome: WorkerEnd::Marker,
            known: false,
        }
    }
}

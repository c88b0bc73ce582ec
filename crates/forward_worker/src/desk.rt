//! What a worker keeps between rounds, where a round stops, and how it ended.
ghost use Rattle.std.specs.Prelude.{◌≡◌, false};

use crate::rows::CheckRows;

/// What a worker keeps between rounds.
#[derive(Drop)]
pub struct Desk {
    /// The number of the worker.
    pub worker: u32,
    /// The place of the last packet that was read, from 1, and 0 before the first one.
    pub place: u64,
    /// How many packets and markers were read.
    pub taken: u64,
    /// How many packets and markers may be read.
    pub limit: u64,
    /// Whether the end of the source was seen.
    pub ended: bool,
}

impl Desk {
    /// The desk of a worker that has read nothing.
    pub fn new(worker: u32, limit: u64) -> Desk
        ensures worker { result.worker ≡ worker }
        ensures place { result.place ≡ 0 }
        ensures taken { result.taken ≡ 0 }
        ensures limit { result.limit ≡ limit }
        ensures ended { result.ended ≡ false }
    {
        Desk {
            worker,
            place: 0,
            taken: 0,
            limit,
            ended: false,
        }
    }
}

/// Where a round stops.
#[derive(Clone, Copy, Debug, PartialEq, Eq)]
pub enum Stop {
    /// At the next marker.
    Marker,
    /// At the end of the source. Markers are passed over.
    End,
}

/// How a round of work ended.
#[derive(Clone, Copy, Debug, PartialEq, Eq)]
pub enum WorkerEnd {
    /// A marker was read, and the round stops there.
    Marker,
    /// The source ended behind a record, now or in a round before.
    End,
    /// A read failed.
    Failed,
    /// The source ended within a record, or a record begins with an octet other than 1 and 2.
    Bad,
    /// As many records were read as may be, and another one was asked for.
    Limit,
    /// There was no memory for a further row. No octet was read for it.
    OutOfMemory,
}

/// The rows of a round, and how it ended.
#[derive(Drop)]
pub struct WorkerRound {
    pub rows: CheckRows,
    pub outcome: WorkerEnd,
}

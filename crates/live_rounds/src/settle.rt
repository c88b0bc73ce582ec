//! At the end of a round the workers are told of all that was published.
ghost use Rattle.std.specs.Prelude.{◌≡◌};
ghost use Rattle.std.specs.List.{AllZip};
ghost use Rattle.live_rounds.specs.Seats.{identity_of, list_of, opening_of};
ghost use Rattle.live_rounds.specs.Stations.{Settled};

use crate::part::Part;
use crate::place::Seat;
use crate::worker::Worker;
use epoch_publish::Naming;
use feed_io::PacketSource;

/// Each worker is given a note, made for it alone, and its checker is asked once more.
pub(crate) fn settle_all<J: Naming, C: Part<J>, P: PacketSource>(
    part: &mut C,
    workers: &mut [Worker<Seat<J>, P>],
)
    ensures same { C.state part.new ≡ C.state part.old }
    ensures settled { AllZip (Settled identity_of opening_of list_of P.left (C.state part.old).batches)
        workers.old workers.new }
{
    if let Some((worker, rest)) = workers.split_first_mut() {
        settle(part, worker);
        settle_all(part, rest);
    }
}

/// One worker is told.
fn settle<J: Naming, C: Part<J>, P: PacketSource>(part: &mut C, worker: &mut Worker<Seat<J>, P>)
    ensures same { C.state part.new ≡ C.state part.old }
    ensures settled { Settled identity_of opening_of list_of P.left (C.state part.old).batches worker.old worker.new }
{
    let note = part.tell();
    worker.known = worker.place.settle(note);
}

//! A feed of session events: the transport comes up, octets come, the transport goes down, seconds
//! pass.
//!
//! What a feed has left is told where it is known, as over memory. A count of faults tells a failure
//! of the outside from a call that gives up by itself.
ghost use Rattle.std.specs.Prelude.{ℕ, ◌<◌, List, length, Option};
ghost use Rattle.urpf_base.specs.Faults.{HasCause};
ghost use Rattle.feed_io.specs.Events.{Event, GivesAtMost, GivesNext};

use urpf_base::Failed;

/// One event of a feed.
#[derive(Clone, Copy, Debug, PartialEq, Eq)]
pub enum FeedEvent {
    /// The transport came up.
    Up,
    /// So many octets came, at least 1. They stand at the front of the buffer.
    Octets(usize),
    /// The transport went down.
    Down,
    /// So many seconds passed.
    Elapsed(u32),
    /// No event is left.
    End,
}

/// Where the events of a session come from.
pub trait Feed: Drop {
    /// The events that are left, where that is known.
    ghost left: { Self → Option (List Event) };

    /// How often a call has failed.
    ghost faults: { Self → ℕ };

    /// Gives the first event that is left, and takes it away. Octets that the buffer has no room for
    /// come in later calls. A failed call leaves the events as they were.
    fn next(&mut self, buf: &mut [u8]) -> Result<FeedEvent, Failed>
        requires { 0 < length buf.old }
        ensures bound { GivesAtMost result buf.new }
        ensures events { GivesNext (left self.old) (left self.new) result buf.new }
        ensures cause { HasCause (faults self.old) (faults self.new) result };
}

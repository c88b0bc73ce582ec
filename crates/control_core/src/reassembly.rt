//! What a session does with the octets of its feed until they are items: those of one connection are
//! framed, and those that come while no transport is up, or behind a header fault, are dropped
//! (RFC 4271, sections 4.1 and 6.1).
ghost use Rattle.std.specs.Prelude.{◌≡◌, ◌++◌, [], true, false};
ghost use Rattle.bgp_wire.specs.Frames.{IsShort};
ghost use Rattle.bgp_wire.specs.States.{IsState, IsLongEnough};

use crate::receive_buffer::ReceiveBuffer;
use bgp_wire::{FrameState, Framer};

/// The octets that a session holds: in the framer those of the message that comes next, and behind
/// them those that wait.
#[derive(Drop)]
pub struct Reassembly {
    pub framer: Framer,
    pub waiting: ReceiveBuffer,
    /// Whether more octets belong to the connection: a transport is up, and no header fault came.
    pub receiving: bool,
}

impl Reassembly {
    /// No transport is up.
    pub fn new() -> Reassembly
        ensures framer { result.framer ≡ [] }
        ensures waiting { result.waiting ≡ [] }
        ensures receiving { result.receiving ≡ false }
    {
        Reassembly {
            framer: Framer::new(),
            waiting: ReceiveBuffer::new(),
            receiving: false,
        }
    }

    /// Frames the octets that wait, up to the next message or header fault, and answers which it is.
    pub fn front(&mut self) -> FrameState
        ensures held { self.new.framer ++ self.new.waiting ≡ self.old.framer ++ self.old.waiting }
        ensures state { IsState self.new.framer result }
        ensures least { IsLongEnough self.new.framer result }
        ensures all { IsShort self.new.framer → self.new.waiting ≡ [] }
        ensures receiving { self.new.receiving ≡ self.old.receiving }
    {
        match self.framer.state() {
            FrameState::Partial(_) => self.fill_framer(),
            FrameState::Whole(kind) => FrameState::Whole(kind),
            FrameState::Fault(subcode) => FrameState::Fault(subcode),
        }
    }

    /// Moves octets that wait into the framer, as far as they belong to the message there.
    fn fill_framer(&mut self) -> FrameState
        requires { IsShort self.old.framer }
        ensures held { self.new.framer ++ self.new.waiting ≡ self.old.framer ++ self.old.waiting }
        ensures state { IsState self.new.framer result }
        ensures least { IsLongEnough self.new.framer result }
        ensures all { IsShort self.new.framer → self.new.waiting ≡ [] }
        ensures receiving { self.new.receiving ≡ self.old.receiving }
    {
        let count = self.framer.push(self.waiting.octets());
        self.waiting.advance(count);
        self.framer.state()
    }

    /// A connection begins. Octets that were left of the one before are dropped.
    pub fn begin(&mut self)
        ensures framer { self.new.framer ≡ [] }
        ensures waiting { self.new.waiting ≡ [] }
        ensures receiving { self.new.receiving ≡ true }
    {
        self.stop();
        self.receiving = true;
    }

    /// The octets that are left are dropped, and so are those that come until a connection begins.
    pub fn stop(&mut self)
        ensures framer { self.new.framer ≡ [] }
        ensures waiting { self.new.waiting ≡ [] }
        ensures receiving { self.new.receiving ≡ false }
    {
        self.framer.clear();
        self.waiting.clear();
        self.receiving = false;
    }
}

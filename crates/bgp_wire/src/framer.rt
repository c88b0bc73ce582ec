//! The framer: octets come in pieces of any size, and it tells when a message is whole or a header
//! is faulty (RFC 4271, section 4.1). It holds one message at most, in a buffer of fixed size.
ghost use Rattle.std.specs.Prelude.{◌≡◌, ◌+◌, ◌-◌, ◌<◌, ◌≤◌, ℕ, [], ◌++◌, length, take, drop, min};
ghost use Rattle.bgp_wire.specs.Frames.{IsMessage, IsShort};
ghost use Rattle.bgp_wire.specs.States.{IsState, IsLongEnough, IsBuffered, MayFill};

use crate::header::{HEADER_OCTETS, fault_of, length_of, type_of};
use crate::kinds::{FrameState, kind_of_type};
use std::marker::Model;

/// The most octets of a message (RFC 4271, section 4.1).
const MESSAGE_OCTETS: usize = 4096;

/// At most one message. Contracts see it as the list of the octets that it holds.
#[derive(Drop)]
pub struct Framer {
    octets: [u8; MESSAGE_OCTETS],
    len: usize,
}

impl Model for Framer {
    ghost use Rattle.std.specs.Prelude.{ℕ, ◌≤◌, List, take};
    ghost use Rattle.bgp_wire.specs.States.{IsBuffered};

    ghost Value = { List ℕ };

    ghost view = { λ f. take f.len f.octets };

    ghost invariant = { λ f. (f.len ≤ 4096) × IsBuffered (take f.len f.octets) };
}

impl Framer {
    /// A framer that holds nothing.
    pub fn new() -> Framer
        ensures { result ≡ [] }
    {
        Framer {
            octets: [0; MESSAGE_OCTETS],
            len: 0,
        }
    }

    /// Takes octets until a message is whole, a header fault is known or the piece is used up, and
    /// answers how many it took. What is not taken belongs to the next message.
    pub fn push(&mut self, piece: &[u8]) -> usize
        requires { IsShort self.old }
        ensures took { result ≤ length piece.now }
        ensures held { self.new ≡ self.old ++ take result piece.now }
        // Where octets are left over, no more may come.
        ensures stops { result < length piece.now → IsShort self.new → ⊥ }
        // Before each octet that it took, more might come.
        ensures first { (k : ℕ) → k < result → IsShort (self.old ++ take k piece.now) }
    {
        let head = self.fill(piece, HEADER_OCTETS);
        let held = self.held();
        if held.len() < HEADER_OCTETS || fault_of(held).is_some() {
            return head;
        }
        let count = length_of(held);
        head + self.fill(&piece[head..], count as usize)
    }

    /// What the octets held are: a part of a message, a whole one or a faulty header.
    pub fn state(&self) -> FrameState
        ensures state { IsState self.now result }
        ensures only { (s : FrameState) → IsState self.now s → result ≡ s }
        ensures least { IsLongEnough self.now result }
    {
        let held = self.held();
        let part = FrameState::Partial(held.len() as u16);
        if held.len() < HEADER_OCTETS {
            return part;
        }
        if let Some(subcode) = fault_of(held) {
            return FrameState::Fault(subcode);
        }
        if held.len() < length_of(held) as usize {
            return part;
        }
        FrameState::Whole(kind_of_type(type_of(held)))
    }

    /// The octets behind the header of a whole message.
    pub fn body(&self) -> &[u8]
        requires { IsMessage self.now }
        ensures { result.now ≡ drop 19 self.now }
    {
        &self.held()[HEADER_OCTETS..]
    }

    /// Lets go of a whole message, so that the next one may come.
    pub fn next(&mut self)
        requires { IsMessage self.old }
        ensures { self.new ≡ [] }
    {
        self.clear();
    }

    /// Lets go of all octets held, whatever they are.
    pub fn clear(&mut self)
        ensures { self.new ≡ [] }
    {
        self.len = 0;
    }

    /// The octets held.
    fn held(&self) -> &[u8]
        ensures held { result.now ≡ self.now }
        ensures buffered { IsBuffered result.now }
    {
        &self.octets[..self.len]
    }

    /// Takes octets until there are so many or the piece is used up, and answers how many it took.
    fn fill(&mut self, piece: &[u8], upto: usize) -> usize
        requires { MayFill self.old upto }
        ensures count { result ≡ min (upto - length self.old) (length piece.now) }
        ensures held { self.new ≡ self.old ++ take result piece.now }
    {
        let missing = upto.saturating_sub(self.held().len());
        let count = piece.len().min(missing);
        self.append(&piece[..count]);
        count
    }

    /// Takes the whole piece, which belongs to what is held.
    fn append(&mut self, piece: &[u8])
        requires { IsBuffered (self.old ++ piece.now) }
        ensures { self.new ≡ self.old ++ piece.now }
    {
        let end = self.len + piece.len();
        self.octets[self.len..end].copy_from_slice(piece);
        self.len = end;
    }
}

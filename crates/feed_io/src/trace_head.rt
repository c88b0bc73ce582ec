//! The head of an event in the trace format: what stands before the octets of the event.
//!
//! | Octets | Event |
//! |---|---|
//! | 01 | the transport comes up |
//! | 02, length (2 octets, 1 to 65,535) | so many octets come, which follow |
//! | 03 | the transport goes down |
//! | 04, seconds (4 octets) | so many seconds pass |
//!
//! Numbers have their highest octet first. The format is our own choice.
ghost use Rattle.std.specs.Prelude.{◌≡◌, ◌+◌, ◌-◌, ◌≤◌, ◌++◌, [], length};
ghost use Rattle.feed_io.specs.Traces as spec;
ghost use Rattle.feed_io.specs.Traces.{IsHead, owed_head};

use byteorder::{BigEndian, ByteOrder};
use std::marker::Model;

/// The transport comes up.
pub const UP: u8 = 1;

/// Octets come.
pub const OCTETS: u8 = 2;

/// The transport goes down.
pub const DOWN: u8 = 3;

/// Seconds pass.
pub const ELAPSED: u8 = 4;

/// The octets of the longest head.
pub const HEAD_OCTETS: usize = 5;

/// What a whole head says.
#[derive(Clone, Copy, Debug, PartialEq, Eq)]
pub enum HeadEvent {
    /// The first octet is none of the four, or the length is 0.
    Malformed,
    /// The transport comes up.
    Up,
    /// So many octets follow.
    Octets(u16),
    /// The transport goes down.
    Down,
    /// So many seconds pass.
    Elapsed(u32),
}

/// A front of a head, or a whole one. Contracts see it as the list of its octets.
#[derive(Drop)]
pub struct Head {
    octets: [u8; HEAD_OCTETS],
    len: usize,
}

impl Model for Head {
    ghost use Rattle.std.specs.Prelude.{ℕ, ◌≤◌, List, take};
    ghost use Rattle.feed_io.specs.Traces.{IsHead};

    ghost Value = { List ℕ };

    ghost view = { λ h. take h.len h.octets };

    ghost invariant = { λ h. (h.len ≤ 5) × IsHead (take h.len h.octets) };
}

impl Head {
    /// Nothing was read yet.
    pub fn new() -> Head
        ensures { result ≡ [] }
    {
        Head {
            octets: [0; HEAD_OCTETS],
            len: 0,
        }
    }

    /// The octets so far.
    pub fn octets(&self) -> &[u8]
        ensures octets { result.now ≡ self.now }
        ensures head { IsHead result.now }
    {
        &self.octets[..self.len]
    }

    /// How many octets are missing until the head is whole.
    pub fn missing(&self) -> usize
        ensures missing { result ≡ spec.head_length self.now - length self.now }
        ensures head { IsHead self.now }
        ensures within { result ≤ 5 }
    {
        let octets = self.octets();
        head_length(octets) - octets.len()
    }

    /// Takes further octets.
    pub fn append(&mut self, piece: &[u8])
        requires { IsHead (self.old ++ piece.now) }
        ensures { self.new ≡ self.old ++ piece.now }
    {
        let end = self.len + piece.len();
        self.octets[self.len..end].copy_from_slice(piece);
        self.len = end;
    }

    /// Becomes the head of an event of so many octets, and nothing where there are none.
    pub fn owe(&mut self, count: u16)
        ensures { self.new ≡ owed_head count }
    {
        self.len = 0;
        if count > 0 {
            let [high, low] = count.to_be_bytes();
            self.octets = [OCTETS, high, low, 0, 0];
            self.len = 3;
        }
    }

    /// Becomes nothing.
    pub fn clear(&mut self)
        ensures { self.new ≡ [] }
    {
        self.len = 0;
    }
}

/// How many octets the head has that begins so: at least 1.
fn head_length(octets: &[u8]) -> usize
    ensures length { result ≡ spec.head_length octets.now }
    ensures within { result ≤ 5 }
{
    let [code, ..] = octets else {
        return 1;
    };
    code_length(*code)
}

/// How many octets a head has whose first octet is this.
fn code_length(code: u8) -> usize
    ensures length { result ≡ spec.code_length code }
    ensures within { result ≤ 5 }
{
    if code == OCTETS {
        return 3;
    }
    if code == ELAPSED {
        return 5;
    }
    1
}

/// What a whole head says.
pub fn read_head(octets: &[u8]) -> HeadEvent
    requires { length octets.now ≡ spec.head_length octets.now }
    ensures { result ≡ spec.head_event octets.now }
{
    let [code, field @ ..] = octets else {
        return HeadEvent::Malformed;
    };
    coded_event(*code, field)
}

/// What a head says by its first octet and those after it.
fn coded_event(code: u8, field: &[u8]) -> HeadEvent
    requires { length field.now + 1 ≡ spec.code_length code }
    ensures { result ≡ spec.coded_event code field.now }
{
    if code == UP {
        return HeadEvent::Up;
    }
    if code == OCTETS {
        return octets_event(BigEndian::read_u16(field));
    }
    if code == DOWN {
        return HeadEvent::Down;
    }
    if code == ELAPSED {
        return HeadEvent::Elapsed(BigEndian::read_u32(field));
    }
    HeadEvent::Malformed
}

/// So many octets follow, at least 1.
fn octets_event(count: u16) -> HeadEvent
    ensures { result ≡ spec.octets_event count }
{
    if count == 0 {
        return HeadEvent::Malformed;
    }
    HeadEvent::Octets(count)
}

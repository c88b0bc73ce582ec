//! Where a worker reads packet records.
//!
//! | Octets | Record |
//! |---|---|
//! | 01, interface (2 octets), length (2 octets) | a packet that came in there, whose octets follow, from its first one on |
//! | 02 | a marker, which ends a round |
//!
//! Numbers have their highest octet first. The format is our own choice.
ghost use Rattle.std.specs.Prelude.{◌≡◌, ℕ, ◌<◌, List, length, Option, None, Some};
ghost use Rattle.std.specs.Io.{ReadsAtMost};
ghost use Rattle.std.specs.Io.KnownBytes.{ReadConsumes};
ghost use Rattle.urpf_base.specs.Faults.{HasCause};

use crate::adapters::FileSource;
use crate::memory::{MemSource, SureSource};
use std::rt::Files;
use urpf_base::{Failed, Source};

/// A packet follows.
pub const PACKET: u8 = 1;

/// A round ends.
pub const MARKER: u8 = 2;

/// Where the octets of packet records are read from, as those of a `Source` are. A thread of its own
/// may read them.
pub trait PacketSource {
    /// The octets that are left, where that is known.
    ghost left: { Self → Option (List ℕ) };

    /// How often a read has failed.
    ghost faults: { Self → ℕ };

    /// Fills the front of the buffer with the next octets, and answers how many: 0 only at the end.
    /// A failed read takes nothing.
    fn read(&mut self, buf: &mut [u8]) -> Result<usize, Failed>
        requires { 0 < length buf.old }
        ensures bound { ReadsAtMost result buf.new }
        ensures octets { ReadConsumes (left self.old) (left self.new) result buf.new }
        ensures cause { HasCause (faults self.old) (faults self.new) result };
}

impl PacketSource for SureSource {
    ghost left = { λ s. Some s };

    ghost faults = { λ _. 0 };

    fn read(&mut self, buf: &mut [u8]) -> Result<usize, Failed> {
        Source::read(self, buf)
    }
}

impl PacketSource for MemSource {
    ghost left = { λ s. Some s.left };

    ghost faults = { λ s. s.schedule.faults };

    fn read(&mut self, buf: &mut [u8]) -> Result<usize, Failed> {
        Source::read(self, buf)
    }
}

impl<R: Files + Drop> PacketSource for FileSource<R> {
    ghost left = { λ _. None };

    ghost faults = { λ s. s.faults };

    fn read(&mut self, buf: &mut [u8]) -> Result<usize, Failed> {
        Source::read(self, buf)
    }
}

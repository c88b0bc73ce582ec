//! How octets come in and go out: a source is read, a sink is written to, and each may fail.
//!
//! What a source has left and what a sink holds is told where it is known, as over memory. A count
//! of faults tells a failure of the outside from a call that gives up by itself.
ghost use Rattle.std.specs.Prelude.{ℕ, ◌<◌, List, length, Option, IfOk};
ghost use Rattle.std.specs.Io.{ReadsAtMost, WritesAtMost};
ghost use Rattle.std.specs.Io.KnownBytes.{ReadConsumes, WriteAppends};
ghost use Rattle.urpf_base.specs.Faults.{HasCause};

/// Memory could not be had.
#[derive(Clone, Copy, Debug, PartialEq, Eq)]
pub struct OutOfMemory;

/// The outside failed in this call.
#[derive(Clone, Copy, Debug, PartialEq, Eq)]
pub struct Failed;

/// Where octets are read from.
pub trait Source {
    /// The octets that are left, where that is known.
    ghost left: { Self → Option (List ℕ) };

    /// How often a read has failed.
    ghost faults: { Self → ℕ };

    /// Fills the front of the buffer with the next octets, and answers how many: 0 only at the end.
    /// A failed read takes nothing.
    fn read(&mut self, buf: &mut [u8]) -> Result<usize, Failed>
        requires { 0 < length buf.old }
        ensures bound { ReadsAtMost result buf.new }
        ensures octets { ReadConsumes (left self.old) (left self.new) result buf.new }
        ensures cause { HasCause (faults self.old) (faults self.new) result };
}

/// Where octets are written to.
pub trait Sink {
    /// The octets that were taken, where that is known.
    ghost held: { Self → Option (List ℕ) };

    /// How often a write has failed.
    ghost faults: { Self → ℕ };

    /// Takes the front of the piece, and answers how many octets: at least 1 of a piece that is not
    /// empty. A failed write takes nothing.
    fn write(&mut self, piece: &[u8]) -> Result<usize, Failed>
        ensures bound { WritesAtMost result piece.now }
        ensures some { 0 < length piece.now → IfOk result (λ n. 0 < n) }
        ensures octets { WriteAppends (held self.old) (held self.new) result piece.now }
        ensures cause { HasCause (faults self.old) (faults self.new) result };
}

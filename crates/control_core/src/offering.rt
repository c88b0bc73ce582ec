//! A line of output is offered to a sink, whole in one piece.
ghost use Rattle.std.specs.Prelude.{◌≡◌, ◌≤◌, ℕ, IfErr, OnErr, OnOk, length, take};
ghost use Rattle.std.specs.Io.KnownBytes.{Appends};
ghost use Rattle.urpf_base.specs.Faults.{HasCause};

use crate::limits::RunFault;
use urpf_base::{Failed, Line, Sink, write_all};

/// Offers the line to the sink. Where a write fails a front of it was taken.
pub fn offer<K: Sink>(line: &Line, out: &mut K) -> Result<(), RunFault>
    ensures ok { OnOk result (Appends (K.held out.old) (K.held out.new) line.now) }
    ensures err { IfErr result (λ fault. fault ≡ RunFault.WriteFault) }
    ensures cut_short { OnErr result ((n : ℕ) × (n ≤ length line.now)
        × Appends (K.held out.old) (K.held out.new) (take n line.now)) }
    ensures cause { HasCause (K.faults out.old) (K.faults out.new) result }
{
    match write_all(out, line.bytes()) {
        Ok(()) => Ok(()),
        Err(Failed) => Err(RunFault::WriteFault),
    }
}

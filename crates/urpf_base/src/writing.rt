//! A whole piece into a sink.
ghost use Rattle.std.specs.Prelude.{ℕ, ◌≤◌, length, take, OnOk, OnErr};
ghost use Rattle.std.specs.Io.KnownBytes.{Appends};
ghost use Rattle.urpf_base.specs.Faults.{HasCause};

use crate::outside::{Failed, Sink};

/// Offers the piece until all of it is taken. It stops at the first write that fails, and a front of
/// the piece was taken then.
pub fn write_all<K: Sink>(sink: &mut K, piece: &[u8]) -> Result<(), Failed>
    ensures ok { OnOk result (Appends (K.held sink.old) (K.held sink.new) piece.now) }
    ensures err { OnErr result ((n : ℕ) × (n ≤ length piece.now)
        × Appends (K.held sink.old) (K.held sink.new) (take n piece.now)) }
    ensures cause { HasCause (K.faults sink.old) (K.faults sink.new) result }
{
    let mut taken = 0;
    while taken < piece.len() {
        taken += sink.write(&piece[taken..])?;
    }
    Ok(())
}

//! Where the publications of a run go: to a snapshot, which judges by them, and it may be to others.
ghost use Rattle.std.specs.Prelude.{◌≡◌, [], ◌∷◌, MatchResult, OnOk};
ghost use Rattle.cover_table.specs.Snapshots.{step};
ghost use Rattle.run_lines.specs.Publications.{Adds, Follows};

use cover_table::{Batch, Snapshot};
use urpf_base::OutOfMemory;

/// Who takes the batch of each publication over, and judges by all of them. Contracts see what it
/// shows, the batches that it handed on, where it tells, and that it may take one over. `A` is what
/// is lent to it for that.
pub trait Outlet<A> {
    ghost use Rattle.std.specs.Prelude.{List, Option};
    ghost use Rattle.cover_table.specs.Snapshots.{Publication};
    ghost use Rattle.cover_table.specs.declared.batch.Batch.{Batch};

    ghost shown: { Self → Publication };

    ghost batches: { Self → Option (List Batch) };

    ghost sound: { Self → Type 0 };

    /// Takes the next batch over. Where memory is refused no batch is handed on.
    fn take_over(&mut self, aid: &A, batch: Batch) -> Result<(), OutOfMemory>
        requires sound { sound self.old }
        requires follows { Follows (shown self.old) batch }
        ensures shown { OnOk result (shown self.new ≡ step (shown self.old) batch) }
        ensures batches { MatchResult result (λ _. Adds (batches self.old) (batches self.new) (batch ∷ [])) (λ _. batches self.new ≡ batches self.old) }
        ensures sound { OnOk result (sound self.new) };

    /// What judges by all that was taken over.
    fn snapshot(&self) -> &Snapshot
        ensures { result.now ≡ shown self.now };
}

/// A snapshot alone hands nothing on.
impl Outlet<()> for Snapshot {
    ghost use Rattle.std.specs.Prelude.{None};

    ghost shown = { λ s. s };

    ghost batches = { λ s. None };

    ghost sound = { λ s. Unit {0} };

    fn take_over(&mut self, _aid: &(), batch: Batch) -> Result<(), OutOfMemory> {
        self.absorb(&batch)
    }

    fn snapshot(&self) -> &Snapshot {
        self
    }
}

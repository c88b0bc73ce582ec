//! Laws on the text of a live run, as contracts of functions without code.
ghost use Rattle.std.specs.Prelude.{◌≡◌, ◌≤◌, ℕ, List, Option, length, take};
ghost use Rattle.urpf_base.specs.declared.address.Addr.{Addr};
ghost use Rattle.cover_table.specs.Judging.{judge};
ghost use Rattle.cover_table.specs.Snapshots.{fold};
ghost use Rattle.cover_table.specs.declared.batch.Batch.{Batch};
ghost use Rattle.run_lines.specs.Inputs.{Run};
ghost use Rattle.run_lines.specs.Places.{opening};
ghost use Rattle.run_lines.specs.Publications.{AreBatches};
ghost use Rattle.run_lines.specs.Steps.{Step};
ghost use Rattle.live_text.specs.Tables.{IsVerdictOf};

/// What the first batches of the steps of a run leave judges a source as the world of the mark does
/// that has the number of the last of them.
pub fn verdicts_of_marks()
    ensures { (run : Run) (steps : List Step) (batches : List Batch)
        → AreBatches run (opening run.config.sessions) steps batches → (number : ℕ)
        → number ≤ length batches → (iface : ℕ) (source : Option Addr)
        → IsVerdictOf run steps number iface source
        (judge (fold run.config.interfaces (take number batches)) iface source) }
{}

//! Laws on lists of numbered batches.
ghost use Rattle.std.specs.Prelude.{◌≡◌, ℕ, ◌+◌, ◌∷◌, ◌++◌, [], List, length};
ghost use Rattle.urpf_base.specs.declared.kinds.Kind.{Kind};
ghost use Rattle.cover_table.specs.declared.batch.Batch.{Batch};
ghost use Rattle.cover_table.specs.Snapshots.{fold};
ghost use Rattle.epoch_publish.specs.History.{AreNumbered};

/// The number of a publication is that of its last batch, and so the number of batches.
pub fn numbered_folds()
    ensures { (kinds : List (ℕ × Kind)) (batches : List Batch) → AreNumbered batches → (fold kinds batches).number ≡ length batches }
{}

/// A beginning of a numbered list is numbered, and the next batch is numbered by one more.
pub fn numbered_lists()
    ensures begins { (batches more : List Batch) → AreNumbered (batches ++ more) → AreNumbered batches }
    ensures next { (batches : List Batch) (batch : Batch) → AreNumbered batches → batch.number ≡ length batches + 1 → AreNumbered (batches ++ batch ∷ []) }
{}

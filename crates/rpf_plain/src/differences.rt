//! The prefixes whose cell is another in one table than in another.
ghost use Rattle.std.specs.Prelude.{◌≡◌, ◌↔◌, [], ◌∷◌, ◌++◌, IfOk, OnOk, IsTrue};
ghost use Rattle.urpf_base.specs.Cells.{AllBefore};
ghost use Rattle.rpf_plain.specs.Cells.{AreDifferences, cell_or_empty};

use crate::cells::no_cell;
use prefix_map::{Beside, PrefixMap};
use std::alloc::Global;
use urpf_base::{Cell, CellChange, Changes, OutOfMemory, Prefix};

/// The prefixes whose cell is another in the new table than in the old, each with its new cell.
pub fn differences(
    alloc: Global,
    old: &PrefixMap<Cell>,
    new: &PrefixMap<Cell>,
) -> Result<Changes, OutOfMemory>
    ensures { IfOk result (AreDifferences old.now new.now) }
{
    let mut changes = Changes::new(alloc);
    for (prefix, (old, new)) in Beside::over(old, new) {
        note(&mut changes, prefix, or_empty(old), or_empty(new))?;
    }
    Ok(changes)
}

/// Appends the prefix with its new cell, where that is another.
fn note(changes: &mut Changes, prefix: Prefix, old: Cell, new: Cell) -> Result<(), OutOfMemory>
    requires { AllBefore changes.old prefix }
    ensures same { OnOk result (old ≡ new → changes.new ≡ changes.old) }
    ensures another { OnOk result (¬ (old ≡ new)
        → changes.new ≡ changes.old ++ record { prefix = prefix; cell = new } ∷ []) }
{
    if same_cell(&old, &new) {
        return Ok(());
    }
    changes.push(CellChange { prefix, cell: new })
}

/// Whether both are the same cell.
fn same_cell(a: &Cell, b: &Cell) -> bool
    ensures { IsTrue result ↔ (a.now ≡ b.now) }
{
    *a == *b
}

/// The cell, or the empty one where there is none.
fn or_empty(cell: Option<Cell>) -> Cell
    ensures { result ≡ cell_or_empty cell }
{
    match cell {
        Some(cell) => cell,
        None => no_cell(),
    }
}

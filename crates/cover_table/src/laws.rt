//! What holds of all tables, folds and verdicts, for crates that cite it. The functions do nothing.
ghost use Rattle.std.specs.Prelude.{◌≡◌, ◌↔◌, ◌++◌, ℕ, IsTrue, List, [], ◌∷◌, Option, Some, None};
ghost use Rattle.std.specs.FinMap.{get};
ghost use Rattle.urpf_base.specs.Address.{Block, Covers};
ghost use Rattle.urpf_base.specs.Cells.{AreAscending};
ghost use Rattle.urpf_base.specs.Lists.{Has};
ghost use Rattle.urpf_base.specs.declared.address.Addr.{Addr};
ghost use Rattle.urpf_base.specs.declared.cells.Cell.{Cell};
ghost use Rattle.urpf_base.specs.declared.cells.CellChange.{CellChange};
ghost use Rattle.urpf_base.specs.declared.kinds.Kind.{Kind};
ghost use Rattle.urpf_base.specs.declared.kinds.Mode.{Mode};
ghost use Rattle.prefix_map.specs.Mapped.{Mapped};
ghost use Rattle.router_config.specs.Kinds.{kind_in};
ghost use Rattle.rpf_plain.specs.Cells.{cell_at, cell_or_empty, empty_cell};
ghost use Rattle.rpf_plain.specs.Modes.{Says};
ghost use Rattle.cover_table.specs.declared.batch.Batch.{Batch};
ghost use Rattle.cover_table.specs.Folds.{AllAscend, last_kinds, last_named, last_number};
ghost use Rattle.cover_table.specs.Judging.{judge, passes};
ghost use Rattle.cover_table.specs.Snapshots.{Publication, fold, opening, step};
ghost use Rattle.cover_table.specs.Tables.{taken_over, written};

use urpf_base::Verdict;

/// That a write gives its prefix the cell and changes no other, that changes which ascend give each
/// of their prefixes its cell and change no other, and that no prefix comes to be named for an empty
/// cell.
pub fn written_laws()
    ensures here { (change : CellChange) (cells : Mapped Cell)
        → cell_at (written change cells) change.prefix ≡ change.cell }
    ensures others { (change : CellChange) (cells : Mapped Cell) (p : Block)
        → ¬ (p ≡ change.prefix) → get (written change cells) p ≡ get cells p }
    ensures changed { (changes : List CellChange) (cells : Mapped Cell) → AreAscending changes
        → (p : Block) (c : Cell) → Has changes (record { prefix = p; cell = c })
        → cell_at (taken_over changes cells) p ≡ c }
    ensures unchanged { (changes : List CellChange) (cells : Mapped Cell) → AreAscending changes
        → (p : Block) → ((c : Cell) → ¬ Has changes (record { prefix = p; cell = c }))
        → cell_at (taken_over changes cells) p ≡ cell_at cells p }
    ensures filled { (changes : List CellChange) (cells : Mapped Cell)
        → ((p : Block) → ¬ (get cells p ≡ Some empty_cell))
        → (p : Block) → ¬ (get (taken_over changes cells) p ≡ Some empty_cell) }
{}

/// That a fold begins with the opening, and goes one step further with each batch.
pub fn fold_steps()
    ensures none { (kinds : List (ℕ × Kind)) → fold kinds [] ≡ opening kinds }
    ensures more { (kinds : List (ℕ × Kind)) (batches : List Batch) (batch : Batch)
        → fold kinds (batches ++ batch ∷ []) ≡ step (fold kinds batches) batch }
{}

/// That a fold has the number and the kinds of the last batch, and for each prefix the cell of the
/// last batch that names it, or the empty one, for which it never names a prefix.
pub fn fold_laws()
    ensures number { (kinds : List (ℕ × Kind)) (batches : List Batch)
        → (fold kinds batches).number ≡ last_number 0 batches }
    ensures kinds { (kinds : List (ℕ × Kind)) (batches : List Batch)
        → (fold kinds batches).kinds ≡ last_kinds kinds batches }
    ensures cells { (kinds : List (ℕ × Kind)) (batches : List Batch) → AllAscend batches
        → (p : Block) → cell_at (fold kinds batches).cells p ≡ cell_or_empty (last_named batches p) }
    ensures filled { (kinds : List (ℕ × Kind)) (batches : List Batch) (p : Block)
        → ¬ (get (fold kinds batches).cells p ≡ Some empty_cell) }
{}

/// That a source passes in a mode just where the cell of some prefix that covers it says so, and
/// that the verdict is `NoIface` just where the interface is not configured, and `BadHead` just
/// where it is and there is no source.
pub fn judge_laws()
    ensures passes { (mode : Mode) (iface : ℕ) (cells : Mapped Cell) (source : Addr)
        → (IsTrue (passes mode iface cells source)
        ↔ ((p : Block) × Says mode iface p (cell_at cells p) × Covers p source)) }
    ensures no_iface { (s : Publication) (iface : ℕ) (source : Option Addr)
        → ((judge s iface source ≡ Verdict.NoIface) ↔ (kind_in s.kinds iface ≡ None)) }
    ensures bad_head { (s : Publication) (iface : ℕ) (source : Option Addr)
        → ((judge s iface source ≡ Verdict.BadHead)
        ↔ (¬ (kind_in s.kinds iface ≡ None) × (source ≡ None))) }
{}

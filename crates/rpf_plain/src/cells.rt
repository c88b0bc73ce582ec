//! The cells of now, made anew in two walks over the rows and one over the pairs: what is known of
//! each origin, what the interfaces have and Algorithms A and B make of it, and what the pairs add.
ghost use Rattle.std.specs.Prelude.{◌≡◌, ◌↔◌, ◌⊎◌, ℕ, IfOk, OnOk, IsTrue, Some, false};
ghost use Rattle.urpf_base.specs.Address.{Block};
ghost use Rattle.urpf_base.specs.Masks.{InMask};
ghost use Rattle.rpf_plain.specs.Cells.{cell_at, empty_cell};
ghost use Rattle.rpf_plain.specs.Kept.{each_row};
ghost use Rattle.rpf_plain.specs.Walks.{Admits, AreCells, AreReaches, HavePairsToo, IsFilled};
ghost use Rattle.rpf_plain.specs.Written.{IsFresh};

use crate::ahead::Ahead;
use crate::near::Near;
use crate::origins::{Origins, Reach};
use crate::row_map::RowMap;
use crate::rows::Row;
use crate::writer::CellWriter;
use origin_pairs::PairSet;
use prefix_map::PrefixMap;
use std::alloc::Global;
use urpf_base::{Cell, IfaceId, Mask, OutOfMemory, Prefix};

/// The cell of a prefix that is in no set.
pub fn no_cell() -> Cell
    ensures { result ≡ empty_cell }
{
    Cell {
        f: Mask::empty(),
        a: Mask::empty(),
        z: false,
    }
}

/// The cell that the table has for the prefix.
pub fn cell_of(cells: &PrefixMap<Cell>, prefix: &Prefix) -> Cell
    ensures { result ≡ cell_at cells.now prefix.now }
{
    match cells.get(prefix) {
        Some(cell) => cell,
        None => no_cell(),
    }
}

/// The second walk: which interfaces have each prefix, and what Algorithms A and B say of it.
pub fn decided(
    alloc: Global,
    rows: &RowMap,
    origins: &Origins,
    customers: Mask,
) -> Result<PrefixMap<Cell>, OutOfMemory>
    requires { AreReaches (each_row rows.now) customers origins.now.reaches }
    ensures { IfOk result (AreCells (each_row rows.now) customers) }
{
    let near = Near::placed(alloc, origins)?;
    let mut ahead = Ahead::over(rows);
    let mut cells = CellWriter::new(alloc);
    for row in rows.rows() {
        let ifaces = ahead.ifaces(&row.prefix);
        let reach = near.of(origins, row.origin);
        admit(&mut cells, row, ifaces, reach, customers)?;
    }
    cells.finish(alloc)
}

/// What a row of this reach says of its prefix, which these interfaces have.
fn admit(
    cells: &mut CellWriter,
    row: Row,
    ifaces: Mask,
    reach: Reach,
    customers: Mask,
) -> Result<(), OutOfMemory>
    requires fresh { IsFresh cells.old row.prefix }
    requires heard { InMask ifaces row.iface }
    ensures at { OnOk result (cells.new.at ≡ Some row.prefix) }
    ensures f { OnOk result ((p : Block) → row.prefix ≡ p → (cell_at cells.new.cells p).f ≡ ifaces) }
    ensures kept { OnOk result ((p : Block) → ¬ (row.prefix ≡ p)
        → cell_at cells.new.cells p ≡ cell_at cells.old.cells p) }
    ensures a { OnOk result ((p : Block) (i : ℕ) → InMask (cell_at cells.new.cells p).a i
        ↔ (InMask (cell_at cells.old.cells p).a i ⊎ ((row.prefix ≡ p) × Admits reach customers i))) }
    ensures z { OnOk result ((p : Block) → IsTrue (cell_at cells.new.cells p).z
        ↔ (IsTrue (cell_at cells.old.cells p).z
        ⊎ ((row.prefix ≡ p) × (InMask customers row.iface ⊎ IsTrue reach.in_set_a)))) }
    ensures filled { OnOk result (IsFilled cells.old.cells → IsFilled cells.new.cells) }
{
    let cell = cells.cell(&row.prefix);
    let next = widened(cell, ifaces, reach, customers, row.iface);
    cells.put(&row.prefix, next)?;
    Ok(())
}

/// The cell of a prefix that these interfaces have, with what a row of one of them says that has
/// this reach.
fn widened(cell: Cell, ifaces: Mask, reach: Reach, customers: Mask, iface: IfaceId) -> Cell
    ensures f { result.f ≡ ifaces }
    ensures a { (i : ℕ) → (InMask result.a i ↔ (InMask cell.a i ⊎ Admits reach customers i)) }
    ensures z { IsTrue result.z ↔ (IsTrue cell.z ⊎ (InMask customers iface ⊎ IsTrue reach.in_set_a)) }
{
    Cell {
        f: ifaces,
        a: cell.a.union(admitted(reach, customers)),
        z: cell.z || customers.has(iface) || reach.in_set_a,
    }
}

/// The customer interfaces that a row of this reach admits its prefix to.
fn admitted(reach: Reach, customers: Mask) -> Mask
    ensures { (i : ℕ) → (InMask result i ↔ Admits reach customers i) }
{
    if !reach.in_set_a {
        return Mask::empty();
    }
    reach.ifaces.intersection(customers)
}

/// The walk over the pairs: what they add to each prefix (RFC 8704, section 3.5).
pub fn with_pairs(
    decided: PrefixMap<Cell>,
    pairs: &PairSet,
    origins: &Origins,
    customers: Mask,
) -> Result<PrefixMap<Cell>, OutOfMemory>
    ensures { IfOk result (HavePairsToo pairs.now origins.now.reaches customers decided) }
{
    let mut cells = decided;
    for pair in pairs.pairs() {
        give(&mut cells, pair.0, origins.reach(pair.1), customers)?;
    }
    Ok(cells)
}

/// What a pair of the prefix adds whose AS has this reach.
fn give(
    cells: &mut PrefixMap<Cell>,
    prefix: Prefix,
    reach: Reach,
    customers: Mask,
) -> Result<(), OutOfMemory>
    ensures f { OnOk result ((p : Block) → (cell_at cells.new p).f ≡ (cell_at cells.old p).f) }
    ensures a { OnOk result ((p : Block) (i : ℕ) → InMask (cell_at cells.new p).a i
        ↔ (InMask (cell_at cells.old p).a i ⊎ ((prefix ≡ p) × (InMask customers i × InMask reach.own i)))) }
    ensures z { OnOk result ((p : Block) → IsTrue (cell_at cells.new p).z
        ↔ (IsTrue (cell_at cells.old p).z ⊎ ((prefix ≡ p) × IsTrue reach.in_set_a))) }
    ensures filled { OnOk result (IsFilled cells.old → IsFilled cells.new) }
{
    let given = customers.intersection(reach.own);
    if adds_nothing(given, reach.in_set_a) {
        return Ok(());
    }
    let cell = cell_of(cells, &prefix);
    let next = with_given(cell, given, reach.in_set_a);
    let Ok(_) = cells.set(&prefix, next) else {
        return Err(OutOfMemory);
    };
    Ok(())
}

/// Whether a pair adds nothing that is given to these interfaces, and to Set Z or not.
fn adds_nothing(given: Mask, to_set_z: bool) -> bool
    ensures { IsTrue result ↔ ((given ≡ 0) × (to_set_z ≡ false)) }
{
    given.is_empty() && !to_set_z
}

/// The cell with what a pair adds that is given to these interfaces, and to Set Z or not.
fn with_given(cell: Cell, given: Mask, to_set_z: bool) -> Cell
    ensures f { result.f ≡ cell.f }
    ensures a { (i : ℕ) → (InMask result.a i ↔ (InMask cell.a i ⊎ InMask given i)) }
    ensures z { IsTrue result.z ↔ (IsTrue cell.z ⊎ IsTrue to_set_z) }
{
    Cell {
        f: cell.f,
        a: cell.a.union(given),
        z: cell.z || to_set_z,
    }
}

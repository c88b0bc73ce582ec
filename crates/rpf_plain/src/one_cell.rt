//! The cell of one prefix, looked up in the rows again and again, without memory.
ghost use Rattle.std.specs.Prelude.{◌↔◌, ◌⊎◌, ℕ, IsTrue};
ghost use Rattle.urpf_base.specs.Masks.{InMask};
ghost use Rattle.rpf_plain.specs.Cells.{IsCell};
ghost use Rattle.rpf_plain.specs.Kept.{all_rows, each_row};
ghost use Rattle.rpf_plain.specs.Walks.{Hears, InListA, InListWithPairs, InSetA, InSetZ, InSetZWithPairs};
ghost use Rattle.rpf_plain.specs.Walks.{IsAdmitted, IsCustomers, IsForSetZ, IsHeard, IsListed, IsOfReached};
ghost use Rattle.rpf_plain.specs.Walks.{IsReached, Reaches};
ghost use Rattle.rpf_plain.specs.World.{world_for};

use crate::by_pairs::{in_set_z_by_pairs, listing_by_pairs};
use crate::customers::customers_of;
use crate::row_map::RowMap;
use crate::rows::Row;
use origin_pairs::PairSet;
use router_config::Kinds;
use urpf_base::{Cell, Mask, Prefix};

/// The cell of the prefix.
pub fn cell_now(rows: &RowMap, pairs: &PairSet, kinds: &Kinds, prefix: &Prefix) -> Cell
    ensures { IsCell (world_for kinds.now (all_rows rows.now) pairs.now) prefix.now result }
{
    let customers = customers_of(kinds);
    Cell {
        f: hearing(rows, prefix),
        a: listed(rows, pairs, customers, prefix),
        z: is_in_set_z(rows, pairs, customers, prefix),
    }
}

/// The customer interfaces whose list by Algorithm A has the prefix, by a row or by a pair.
fn listed(rows: &RowMap, pairs: &PairSet, customers: Mask, prefix: &Prefix) -> Mask
    ensures { (i : ℕ) → (InMask result i
        ↔ InListWithPairs (each_row rows.now) pairs.now customers i prefix.now) }
{
    let by_rows = listing(rows, customers, prefix);
    by_rows.union(listing_by_pairs(rows, pairs, customers, prefix))
}

/// Whether Set Z has the prefix, by a row or by a pair.
fn is_in_set_z(rows: &RowMap, pairs: &PairSet, customers: Mask, prefix: &Prefix) -> bool
    ensures { IsTrue result ↔ InSetZWithPairs (each_row rows.now) pairs.now customers prefix.now }
{
    in_set_z(rows, customers, prefix) || in_set_z_by_pairs(rows, pairs, customers, prefix)
}

/// The interfaces that have the prefix.
fn hearing(rows: &RowMap, prefix: &Prefix) -> Mask
    ensures { (i : ℕ) → (InMask result i ↔ Hears (each_row rows.now) i prefix.now) }
{
    let mut ifaces = Mask::empty();
    for row in rows.rows() {
        ifaces = with_heard(ifaces, row, prefix);
    }
    ifaces
}

/// The set, and the interface of the row where that is of the prefix.
pub fn with_heard(ifaces: Mask, row: Row, prefix: &Prefix) -> Mask
    ensures { (i : ℕ) → (InMask result i ↔ (InMask ifaces i ⊎ IsHeard i prefix.now row)) }
{
    if row.is_of(prefix) {
        return ifaces.with(row.iface);
    }
    ifaces
}

/// Whether a customer interface has a row of the origin.
pub fn in_set_a(rows: &RowMap, customers: Mask, origin: u32) -> bool
    ensures { IsTrue result ↔ InSetA (each_row rows.now) customers origin }
{
    for row in rows.rows() {
        if is_customers(row, customers, origin) {
            return true;
        }
    }
    false
}

/// Whether the row is of the origin and of a customer interface.
fn is_customers(row: Row, customers: Mask, origin: u32) -> bool
    ensures { IsTrue result ↔ IsCustomers customers origin row }
{
    row.is_from(origin) && customers.has(row.iface)
}

/// The interfaces that have a prefix of the origin.
fn reaching(rows: &RowMap, origin: u32) -> Mask
    ensures { (i : ℕ) → (InMask result i ↔ Reaches (each_row rows.now) origin i) }
{
    let mut ifaces = Mask::empty();
    for row in rows.rows() {
        ifaces = with_reached(ifaces, rows, row, origin);
    }
    ifaces
}

/// The set, and the interfaces that have the prefix of the row where that is of the origin.
fn with_reached(ifaces: Mask, rows: &RowMap, row: Row, origin: u32) -> Mask
    ensures { (i : ℕ) → (InMask result i ↔ (InMask ifaces i ⊎ IsReached (each_row rows.now) origin i row)) }
{
    if row.is_from(origin) {
        return ifaces.union(hearing(rows, &row.prefix));
    }
    ifaces
}

/// The customer interfaces that have a prefix of the row's origin, which is of Set A.
fn admitting(rows: &RowMap, customers: Mask, row: Row) -> Mask
    ensures { (i : ℕ) → (InMask result i ↔ IsOfReached (each_row rows.now) customers i row) }
{
    let Some(origin) = row.origin else {
        return Mask::empty();
    };
    if !in_set_a(rows, customers, origin) {
        return Mask::empty();
    }
    customers.intersection(reaching(rows, origin))
}

/// The customer interfaces whose list by Algorithm A has the prefix.
fn listing(rows: &RowMap, customers: Mask, prefix: &Prefix) -> Mask
    ensures { (i : ℕ) → (InMask result i ↔ InListA (each_row rows.now) customers i prefix.now) }
{
    let mut ifaces = Mask::empty();
    for row in rows.rows() {
        ifaces = with_listed(ifaces, rows, customers, row, prefix);
    }
    ifaces
}

/// The set, and the interfaces that the row admits its prefix to where it is of the prefix.
fn with_listed(ifaces: Mask, rows: &RowMap, customers: Mask, row: Row, prefix: &Prefix) -> Mask
    ensures { (i : ℕ) → (InMask result i
        ↔ (InMask ifaces i ⊎ IsListed (each_row rows.now) customers i prefix.now row)) }
{
    if row.is_of(prefix) {
        return ifaces.union(admitting(rows, customers, row));
    }
    ifaces
}

/// Whether the row is of a customer interface, or its origin is in Set A.
fn is_admitted(rows: &RowMap, customers: Mask, row: Row) -> bool
    ensures { IsTrue result ↔ IsAdmitted (each_row rows.now) customers row }
{
    if customers.has(row.iface) {
        return true;
    }
    match row.origin {
        Some(origin) => in_set_a(rows, customers, origin),
        None => false,
    }
}

/// Whether Set Z has the prefix.
fn in_set_z(rows: &RowMap, customers: Mask, prefix: &Prefix) -> bool
    ensures { IsTrue result ↔ InSetZ (each_row rows.now) customers prefix.now }
{
    for row in rows.rows() {
        if is_for_set_z(rows, customers, row, prefix) {
            return true;
        }
    }
    false
}

/// Whether the row puts the prefix into Set Z.
fn is_for_set_z(rows: &RowMap, customers: Mask, row: Row, prefix: &Prefix) -> bool
    ensures { IsTrue result ↔ IsForSetZ (each_row rows.now) customers prefix.now row }
{
    row.is_of(prefix) && is_admitted(rows, customers, row)
}

//! What pairs of a prefix and an AS add to the cell of one prefix, without memory.
ghost use Rattle.std.specs.Prelude.{◌↔◌, ◌⊎◌, ℕ, IsTrue};
ghost use Rattle.urpf_base.specs.Masks.{InMask};
ghost use Rattle.rpf_plain.specs.Kept.{each_row};
ghost use Rattle.rpf_plain.specs.Walks.{IsOwn, IsPairForSetZ, IsPairListed, Owns, SomePair};

use crate::one_cell::in_set_a;
use crate::row_map::RowMap;
use crate::rows::Row;
use origin_pairs::PairSet;
use urpf_base::{Mask, Prefix};

/// The interfaces that have a row of the origin.
fn owning(rows: &RowMap, origin: u32) -> Mask
    ensures { (i : ℕ) → (InMask result i ↔ Owns (each_row rows.now) origin i) }
{
    let mut ifaces = Mask::empty();
    for row in rows.rows() {
        ifaces = with_own(ifaces, row, origin);
    }
    ifaces
}

/// The set, and the interface of the row where that is of the origin.
fn with_own(ifaces: Mask, row: Row, origin: u32) -> Mask
    ensures { (i : ℕ) → (InMask result i ↔ (InMask ifaces i ⊎ IsOwn origin i row)) }
{
    if row.is_from(origin) {
        return ifaces.with(row.iface);
    }
    ifaces
}

/// The customer interfaces whose list by Algorithm A has the prefix by a pair (RFC 8704, section
/// 3.5).
pub fn listing_by_pairs(rows: &RowMap, pairs: &PairSet, customers: Mask, prefix: &Prefix) -> Mask
    ensures { (i : ℕ) → (InMask result i
        ↔ SomePair (IsPairListed (each_row rows.now) customers i prefix.now) pairs.now) }
{
    let mut ifaces = Mask::empty();
    for pair in pairs.pairs() {
        ifaces = with_pair_listed(ifaces, rows, customers, pair, prefix);
    }
    ifaces
}

/// The set, and the customer interfaces that the pair gives its prefix to where that is the prefix.
fn with_pair_listed(
    ifaces: Mask,
    rows: &RowMap,
    customers: Mask,
    pair: (Prefix, u32),
    prefix: &Prefix,
) -> Mask
    ensures { (i : ℕ) → (InMask result i
        ↔ (InMask ifaces i ⊎ IsPairListed (each_row rows.now) customers i prefix.now pair)) }
{
    let (paired, asn) = pair;
    if paired == *prefix {
        return ifaces.union(customers.intersection(owning(rows, asn)));
    }
    ifaces
}

/// Whether Set Z has the prefix by a pair (RFC 8704, section 3.5).
pub fn in_set_z_by_pairs(rows: &RowMap, pairs: &PairSet, customers: Mask, prefix: &Prefix) -> bool
    ensures { IsTrue result
        ↔ SomePair (IsPairForSetZ (each_row rows.now) customers prefix.now) pairs.now }
{
    for pair in pairs.pairs() {
        if is_pair_for_set_z(rows, customers, pair, prefix) {
            return true;
        }
    }
    false
}

/// Whether the pair puts the prefix into Set Z.
fn is_pair_for_set_z(rows: &RowMap, customers: Mask, pair: (Prefix, u32), prefix: &Prefix) -> bool
    ensures { IsTrue result ↔ IsPairForSetZ (each_row rows.now) customers prefix.now pair }
{
    let (paired, asn) = pair;
    paired == *prefix && in_set_a(rows, customers, asn)
}

//! Which interfaces have the prefixes that a walk over the rows comes to: a second walk runs ahead of
//! it, by the rows of one prefix.
ghost use Rattle.std.specs.Prelude.{◌≡◌, ◌↔◌, ℕ, IsTrue, List, Some, None};
ghost use Rattle.urpf_base.specs.Address.{Block};
ghost use Rattle.urpf_base.specs.Masks.{InMask};
ghost use Rattle.urpf_base.specs.Order.{IsBefore};
ghost use Rattle.rpf_plain.specs.Ahead.{GoesOver, NotBefore};
ghost use Rattle.rpf_plain.specs.Kept.{each_row};
ghost use Rattle.rpf_plain.specs.Walks.{Hears};
ghost use Rattle.rpf_plain.specs.declared.rows.Row.{Row};

use crate::one_cell::with_heard;
use crate::row_map::{RowMap, Rows};
use crate::rows::Row;
use std::cmp::Ordering;
use std::marker::Model;
use urpf_base::{Mask, Prefix};

/// The rows that were not looked at yet, and which interfaces have the prefix that was asked for last.
#[derive(Drop)]
pub struct Ahead<'a> {
    first: Option<Row>,
    rows: Rows<'a>,
    at: Option<Prefix>,
    ifaces: Mask,
}

impl<'a> Model for Ahead<'a> {
    ghost use Rattle.prefix_map.specs.Beside.{led_by};
    ghost use Rattle.rpf_plain.specs.Ahead.{Found, InPrefixOrder, found_code};

    ghost Value = { Found };

    ghost coded = { found_code };

    ghost view = { λ a. record { at = a.at; ifaces = a.ifaces; left = led_by a.first a.rows } };

    ghost invariant = { λ a. InPrefixOrder (led_by a.first a.rows) };
}

impl<'a> Ahead<'a> {
    /// The walk over these rows, which was asked for nothing yet.
    pub fn over(rows: &'a RowMap) -> Ahead<'a>
        ensures at { result.at ≡ None }
        ensures over { GoesOver (each_row rows.now) result }
    {
        let mut walk = rows.rows();
        Ahead {
            first: walk.next(),
            rows: walk,
            at: None,
            ifaces: Mask::empty(),
        }
    }

    /// The interfaces that have the prefix, which is none before the one that was asked for last.
    pub fn ifaces(&mut self, prefix: &Prefix) -> Mask
        requires { NotBefore self.old.at prefix.now }
        ensures at { self.new.at ≡ Some prefix.now }
        ensures over { (rows : List Row) → GoesOver rows self.old → GoesOver rows self.new }
        ensures heard { (rows : List Row) → GoesOver rows self.old
            → (i : ℕ) → (InMask result i ↔ Hears rows i prefix.now) }
    {
        if self.is_at(prefix) {
            return self.ifaces;
        }
        self.ifaces = self.pass(prefix);
        self.at = Some(*prefix);
        self.ifaces
    }

    /// Whether the prefix was asked for last.
    fn is_at(&self, prefix: &Prefix) -> bool
        ensures { IsTrue result ↔ (self.now.at ≡ Some prefix.now) }
    {
        match self.at {
            Some(at) => at == *prefix,
            None => false,
        }
    }

    /// The interfaces that have the prefix by the rows that are left, which are passed up to the last
    /// one of it.
    fn pass(&mut self, prefix: &Prefix) -> Mask
        ensures at { self.new.at ≡ self.old.at }
        ensures ifaces { self.new.ifaces ≡ self.old.ifaces }
        ensures heard { (i : ℕ) → (InMask result i ↔ Hears self.old.left i prefix.now) }
        ensures left { (p : Block) → IsBefore prefix.now p
            → (i : ℕ) → (Hears self.new.left i p ↔ Hears self.old.left i p) }
    {
        let mut ifaces = Mask::empty();
        while let Some(row) = self.first {
            if is_behind(&row, prefix) {
                break;
            }
            ifaces = with_heard(ifaces, row, prefix);
            self.first = self.rows.next();
        }
        ifaces
    }
}

/// Whether the row is of a prefix that comes behind this one.
fn is_behind(row: &Row, prefix: &Prefix) -> bool
    ensures { IsTrue result ↔ IsBefore prefix.now row.now.prefix }
{
    match prefix.cmp(&row.prefix) {
        Ordering::Less => true,
        Ordering::Equal | Ordering::Greater => false,
    }
}

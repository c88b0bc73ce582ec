//! A node of a tree: a prefix with its cell, and the numbers of its two children.
ghost use Rattle.std.specs.Prelude.{◌≡◌, ◌↔◌, ◌+◌, ◌-◌, ◌^◌, ◌≤◌, ◌<◌, IsTrue};
ghost use Rattle.cover_table.specs.Trees.{cell_of, entry_cell, leaf_of, size};
ghost use Rattle.cover_table.specs.Tables.{is_empty_cell};

use urpf_base::{Cell, Mask};

/// The number that no node has.
pub const NONE: u32 = 0xFFFF_FFFF;

/// A prefix by the number of its address, with its cell. An entry that is empty is in no set.
#[derive(Clone, Copy)]
pub struct Entry {
    pub bits: u128,
    pub f: Mask,
    pub a: Mask,
    pub len: u8,
    pub z: bool,
}

/// A node: an entry, and the numbers of the nodes below it, the lower addresses on the left.
#[derive(Clone, Copy)]
pub struct Node {
    pub entry: Entry,
    pub left: u32,
    pub right: u32,
}

impl Node {
    /// A node with nothing below it.
    pub fn leaf(entry: Entry) -> Node
        ensures { result ≡ leaf_of entry }
    {
        Node {
            entry,
            left: NONE,
            right: NONE,
        }
    }
}

impl Entry {
    /// Whether the cell is that of a prefix that is in no set.
    pub fn is_empty(&self) -> bool
        ensures { result ≡ is_empty_cell (entry_cell self.now) }
    {
        self.f.is_empty() && self.a.is_empty() && !self.z
    }

    /// The cell.
    pub fn cell(&self) -> Cell
        ensures { result ≡ entry_cell self.now }
    {
        Cell {
            f: self.f,
            a: self.a,
            z: self.z,
        }
    }

    /// Whether the prefix covers this address, in a family of so many bits.
    pub fn covers(&self, width: u8, bits: u128) -> bool
        requires within { self.now.len ≤ width }
        requires width { width ≤ 128 }
        ensures { IsTrue result ↔ ((self.now.bits ≤ bits) × (bits < self.now.bits + size width self.now.len)) }
    {
        bits >= self.bits && bits - self.bits <= span(width - self.len)
    }
}

/// How far the last number of so many bits is from the first.
pub fn span(bits: u8) -> u128
    requires { bits ≤ 128 }
    ensures { result + 1 ≡ 2 ^ bits }
{
    if bits == 128 {
        return u128::MAX;
    }
    (1 << bits) - 1
}

/// Half of a block of so many bits.
pub fn half(bits: u8) -> u128
    requires some { 0 < bits }
    requires few { bits ≤ 128 }
    ensures { result ≡ 2 ^ (bits - 1) }
{
    1 << (bits - 1)
}

//! A table of cells: room is made in it, cells are written into it, and sources are checked by it.
ghost use Rattle.std.specs.Prelude.{◌≡◌, ◌+◌, ◌≤◌, ◌<◌, OnOk, OnErr};
ghost use Rattle.std.specs.FinMap as map;
ghost use Rattle.urpf_base.specs.Address.{width_of};
ghost use Rattle.cover_table.specs.Judging.{passes};
ghost use Rattle.cover_table.specs.Tables.{written};
ghost use Rattle.cover_table.specs.Trees.{entry_for};

use crate::judging::is_off;
use crate::node_list::NodeList;
use crate::nodes::Entry;
use crate::tree::CellTree;
use std::alloc::Global;
use std::marker::Model;
use std::sync::ledger::Ledger;
use urpf_base::{Addr, CellChange, IfaceId, Mode, OutOfMemory, Steps};

/// The bits of an IPv4 address.
const V4_BITS: u8 = 32;

/// The bits of an IPv6 address.
const V6_BITS: u8 = 128;

/// The most cells that the numbers of nodes suffice for, with two nodes for each.
const CELLS_MOST: usize = 0x7FFF_FFFF;

/// The cells of the prefixes that are in some set. Contracts see a map from prefixes to cells that
/// are not empty, and how many more cells can be taken in without memory.
///
/// It is a tree of the prefixes of each family, with a node for each prefix and for each branching
/// point.
#[derive(Drop)]
pub struct CoverTable {
    short: CellTree,
    long: CellTree,
}

impl Model for CoverTable {
    ghost use Rattle.std.specs.FinMap.{from_sorted};
    ghost use Rattle.cover_table.specs.Tables.{TableState, table_code};
    ghost use Rattle.cover_table.specs.Trees.{AreTrees, all_rows, spare_of};

    ghost Value = { TableState };

    ghost coded = { table_code };

    ghost view = { λ t. record { cells = from_sorted (all_rows t.short t.long); spare = spare_of t.short t.long } };

    ghost invariant = { λ t. AreTrees t.short t.long };
}

impl CoverTable {
    /// A table of no cells. It takes no memory.
    pub fn new(alloc: Global) -> CoverTable
        ensures { result.cells ≡ map.empty }
    {
        CoverTable {
            short: CellTree::new(NodeList::short(alloc)),
            long: CellTree::new(NodeList::long(alloc)),
        }
    }

    /// Makes room for so many more cells. It is refused only where that room was missing, and
    /// nothing is changed then.
    pub fn reserve(&mut self, n: usize) -> Result<(), OutOfMemory>
        ensures room { OnOk result (n ≤ self.new.spare) }
        ensures cells { self.new.cells ≡ self.old.cells }
        ensures kept { self.old.spare ≤ self.new.spare }
        ensures err { OnErr result (self.new ≡ self.old) }
        ensures missing { OnErr result (self.old.spare < n) }
    {
        let before = self.short.nodes.room();
        if n > CELLS_MOST {
            return Err(OutOfMemory);
        }
        let nodes = 2 * n;
        self.short.make_room(nodes)?;
        let Ok(()) = self.long.make_room(nodes) else {
            self.short.lower_room(before);
            return Err(OutOfMemory);
        };
        Ok(())
    }

    /// Writes one cell. It takes no memory.
    pub fn absorb(&mut self, change: &CellChange)
        requires { 1 ≤ self.old.spare }
        ensures cells { self.new.cells ≡ written change.now self.old.cells }
        ensures spare { self.old.spare ≤ self.new.spare + 1 }
    {
        match change.prefix.addr() {
            Addr::V4(number) => self
                .short
                .absorb(V4_BITS, &entry_of(u128::from(number), change)),
            Addr::V6(number) => self.long.absorb(V6_BITS, &entry_of(number, change)),
        }
    }

    /// Whether a source passes on an interface that is checked in this mode, which is the
    /// effective one. It takes no memory. It adds a step for each prefix of the table and each
    /// branching point that it visits: 33 of them at most for IPv4, and 129 for IPv6.
    pub fn check<L: Ledger>(
        &self,
        iface: IfaceId,
        mode: Mode,
        addr: &Addr,
        steps: &mut Steps<L>,
    ) -> bool
        ensures value { result ≡ passes mode iface self.now.cells addr.now }
        ensures bound { steps.new ≤ steps.old + width_of addr.now + 1 }
        ensures up { steps.old ≤ steps.new }
    {
        let _ = &self.short;
        if is_off(mode) {
            return true;
        }
        match *addr {
            Addr::V4(number) => {
                let bits = u128::from(number);
                self.short
                    .look(V4_BITS, self.short.root, 0, iface, mode, bits, steps)
            }
            Addr::V6(bits) => self
                .long
                .look(V6_BITS, self.long.root, 0, iface, mode, bits, steps),
        }
    }
}

/// The cell of the change as an entry, by the number of its address.
fn entry_of(bits: u128, change: &CellChange) -> Entry
    ensures { result ≡ entry_for bits change.now }
{
    Entry {
        bits,
        f: change.cell.f,
        a: change.cell.a,
        len: change.prefix.len(),
        z: change.cell.z,
    }
}

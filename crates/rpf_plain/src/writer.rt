//! A table of cells that is written prefix by prefix: the cell at hand is put into the table once,
//! when the next prefix comes.
ghost use Rattle.std.specs.Prelude.{◌≡◌, ◌↔◌, IfOk, IsTrue, None, OnOk, Some};
ghost use Rattle.std.specs.FinMap as map;
ghost use Rattle.rpf_plain.specs.Cells.{cell_at, empty_cell};
ghost use Rattle.rpf_plain.specs.Written.{IsFresh};

use crate::cells::no_cell;
use prefix_map::{PrefixMap, PrefixMapBuilder};
use std::alloc::Global;
use std::marker::Model;
use urpf_base::{Cell, OutOfMemory, Prefix};

/// The table, and the cell that is not put into it yet. Contracts see the table with that cell in it.
#[derive(Drop)]
pub struct CellWriter {
    cells: PrefixMapBuilder<Cell>,
    hand: Option<(Prefix, Cell)>,
}

impl Model for CellWriter {
    ghost use Rattle.rpf_plain.specs.Written.{Written, at_hand, with_hand, written_code};

    ghost Value = { Written };

    ghost coded = { written_code };

    ghost view = { λ w. record { cells = with_hand w.hand w.cells; at = at_hand w.hand } };
}

impl CellWriter {
    /// An empty table.
    pub fn new(alloc: Global) -> CellWriter
        ensures cells { result.cells ≡ map.empty }
        ensures at { result.at ≡ None }
    {
        CellWriter {
            cells: PrefixMapBuilder::new(alloc),
            hand: None,
        }
    }

    /// The cell of the prefix, which is at hand, or is empty.
    pub fn cell(&self, prefix: &Prefix) -> Cell
        requires { IsFresh self.now prefix.now }
        ensures { result ≡ cell_at self.now.cells prefix.now }
    {
        let Some((at, cell)) = self.hand else {
            return no_cell();
        };
        if same_prefix(&at, prefix) {
            return cell;
        }
        no_cell()
    }

    /// Gives the prefix this cell, and takes it to hand.
    pub fn put(&mut self, prefix: &Prefix, cell: Cell) -> Result<(), OutOfMemory>
        ensures cells { OnOk result (self.new.cells ≡ map.insert self.old.cells prefix.now cell) }
        ensures at { OnOk result (self.new.at ≡ Some prefix.now) }
    {
        if self.has_at_hand(prefix) {
            self.hand = Some((*prefix, cell));
            return Ok(());
        }
        self.settle()?;
        self.hand = Some((*prefix, cell));
        Ok(())
    }

    /// Whether the cell of the prefix is at hand.
    fn has_at_hand(&self, prefix: &Prefix) -> bool
        ensures { IsTrue result ↔ (self.now.at ≡ Some prefix.now) }
    {
        match self.hand {
            Some((at, _)) => same_prefix(&at, prefix),
            None => false,
        }
    }

    /// Puts the cell that is at hand into the table, where one is.
    fn settle(&mut self) -> Result<(), OutOfMemory>
        ensures cells { OnOk result (self.new.cells ≡ self.old.cells) }
        ensures at { OnOk result (self.new.at ≡ None) }
    {
        let Some((prefix, cell)) = self.hand else {
            return Ok(());
        };
        self.cells.set(&prefix, cell)?;
        self.hand = None;
        Ok(())
    }

    /// The whole table.
    pub fn finish(self, alloc: Global) -> Result<PrefixMap<Cell>, OutOfMemory>
        ensures { IfOk result (λ cells. cells ≡ self.cells) }
    {
        let mut writer = self;
        writer.settle()?;
        writer.cells.finish(alloc)
    }
}

/// Whether both are the same prefix.
fn same_prefix(a: &Prefix, b: &Prefix) -> bool
    ensures { IsTrue result ↔ (a.now ≡ b.now) }
{
    *a == *b
}

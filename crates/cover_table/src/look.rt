//! How a tree answers whether one of its rows admits a source.
ghost use Rattle.std.specs.Prelude.{◌≡◌, ℕ, ◌+◌, ◌-◌, ◌^◌, ◌≤◌, ◌<◌, ◌⊎◌};
ghost use Rattle.std.specs.List.{list_any};
ghost use Rattle.cover_table.specs.Judging.{admits, told};
ghost use Rattle.cover_table.specs.Trees.{IsReady, addr_of, block_for, entry_cell, rows_of, size};

use crate::judging::told_by;
use crate::nodes::{Entry, NONE, half};
use crate::tree::CellTree;
use std::sync::ledger::Ledger;
use urpf_base::{IfaceId, Mode, Steps};

impl CellTree {
    /// Whether a row of the tree that begins at this node admits the source, in a family of so many
    /// bits. The prefixes there have `depth` bits or more. It adds a step for each node that it
    /// visits.
    pub fn look<L: Ledger>(
        &self,
        width: u8,
        at: u32,
        depth: u8,
        iface: IfaceId,
        mode: Mode,
        bits: u128,
        steps: &mut Steps<L>,
    ) -> bool
        requires width { (width ≡ 32) ⊎ (width ≡ 128) }
        requires bits { bits < 2 ^ width }
        requires ready { (low : ℕ) × (low + size width depth ≤ 2 ^ width) × IsReady self.now width at low depth }
        requires depth { depth ≤ width + 1 }
        ensures value { (low : ℕ) → low + size width depth ≤ 2 ^ width
            → (ready : IsReady self.now width at low depth)
            → result ≡ list_any (admits mode iface (addr_of width bits)) (rows_of width ready.tree) }
        ensures bound { steps.new ≤ steps.old + (width + 1 - depth) }
        ensures up { steps.old ≤ steps.new }
    {
        if at == NONE {
            return false;
        }
        let node = self.nodes.get(at);
        steps.tick();
        if !node.entry.covers(width, bits) {
            return false;
        }
        if told_by(mode, iface, &node.entry) {
            return true;
        }
        if node.entry.len == width {
            return false;
        }
        if bits - node.entry.bits < half(width - node.entry.len) {
            return self.look(
                width,
                node.left,
                node.entry.len + 1,
                iface,
                mode,
                bits,
                steps,
            );
        }
        self.look(
            width,
            node.right,
            node.entry.len + 1,
            iface,
            mode,
            bits,
            steps,
        )
    }
}

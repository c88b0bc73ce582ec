//! How a tree gets more free nodes.
ghost use Rattle.std.specs.Prelude.{◌≡◌, ℕ, [], ◌∷◌, ◌++◌, ◌+◌, ◌^◌, ◌≤◌, ◌<◌, OnOk, OnErr, length};
ghost use Rattle.cover_table.specs.Trees.{IsWhole, link_of, spare_nodes, tree_of};

use crate::nodes::{Entry, NONE, Node};
use crate::tree::CellTree;
use urpf_base::{Mask, OutOfMemory};

impl CellTree {
    /// Makes room for as many nodes as are wanting to so many free ones. It is refused where memory
    /// is, and where there would be no numbers for them.
    pub fn make_room(&mut self, nodes: usize) -> Result<(), OutOfMemory>
        ensures room { OnOk result (nodes ≤ spare_nodes self.new) }
        ensures kept { spare_nodes self.old ≤ spare_nodes self.new }
        ensures err { OnErr result (self.new.nodes.room ≡ self.old.nodes.room) }
        ensures missing { OnErr result (spare_nodes self.old < nodes) }
        ensures whole { (width : ℕ) → IsWhole width self.old → IsWhole width self.new }
        ensures tree { tree_of self.new ≡ tree_of self.old }
        ensures freed { self.new.freed ≡ self.old.freed }
        ensures highest { self.new.nodes.highest ≡ self.old.nodes.highest }
    {
        if nodes <= self.freed {
            return Ok(());
        }
        self.nodes.make_room(nodes - self.freed)
    }

    /// Gives up the room above this. The free nodes stay.
    pub fn lower_room(&mut self, room: usize)
        requires { room ≤ self.old.nodes.room }
        ensures room { self.new.nodes.room ≡ room }
        ensures whole { (width : ℕ) → IsWhole width self.old → IsWhole width self.new }
        ensures tree { tree_of self.new ≡ tree_of self.old }
        ensures freed { self.new.freed ≡ self.old.freed }
        ensures highest { self.new.nodes.highest ≡ self.old.nodes.highest }
    {
        self.nodes.lower_room(room);
    }

    /// Adds nodes that are free until there are so many, for which there is room. It takes no
    /// memory.
    pub fn fill(&mut self, width: u8, nodes: usize)
        requires width { width ≤ 128 }
        requires whole { IsWhole width self.old }
        requires room { nodes ≤ spare_nodes self.old }
        ensures whole { IsWhole width self.new }
        ensures tree { tree_of self.new ≡ tree_of self.old }
        ensures freed { nodes ≤ self.new.freed }
        ensures spare { spare_nodes self.new ≡ spare_nodes self.old }
        ensures highest { self.new.nodes.highest ≡ self.old.nodes.highest }
    {
        while self.freed < nodes {
            self.add_free();
        }
    }

    /// Adds a node that is free.
    fn add_free(&mut self)
        requires room { 0 < self.old.nodes.room }
        requires few { self.old.freed < 2 ^ 32 }
        ensures nodes { self.new.nodes.items ≡ self.old.nodes.items ++ link_of self.old.free ∷ [] }
        ensures free { self.new.free ≡ length self.old.nodes.items }
        ensures freed { self.new.freed ≡ self.old.freed + 1 }
        ensures root { self.new.root ≡ self.old.root }
        ensures room { self.new.nodes.room + 1 ≡ self.old.nodes.room }
        ensures highest { self.new.nodes.highest ≡ self.old.nodes.highest }
        ensures numbers { length self.new.nodes.items ≤ 4294967295 }
    {
        self.free = self.nodes.push(link(self.free));
        self.freed += 1;
    }
}

/// A node that is free, and names the next one.
fn link(next: u32) -> Node
    ensures { result ≡ link_of next }
{
    let entry = Entry {
        bits: 0,
        f: Mask::empty(),
        a: Mask::empty(),
        len: 0,
        z: false,
    };
    Node {
        entry,
        left: next,
        right: NONE,
    }
}

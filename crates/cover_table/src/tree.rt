//! The cells of one family in a tree, path-compressed: a node for each prefix with a cell that is
//! not empty, and for each branching point.
ghost use Rattle.std.specs.Prelude.{◌≡◌, ℕ, [], ◌++◌, ◌+◌, ◌-◌, ◌^◌, ◌≤◌, ◌<◌, length, slice_index_or, slice_set};
ghost use Rattle.urpf_base.specs.Address.{cleared};
ghost use Rattle.cover_table.specs.Rows.{rows_written};
ghost use Rattle.cover_table.specs.declared.nodes.Node.{Node};
ghost use Rattle.cover_table.specs.Trees.{AreApart, IsReady, IsWhole, IsWithin, Results, change_for, own_rows, rows_of};
ghost use Rattle.cover_table.specs.Trees.{size, spare_nodes, tree_of};

use crate::forks::fork_of;
use crate::node_list::NodeList;
use crate::nodes::{Entry, NONE, Node, half};

/// The nodes of a tree, in one vector, by whose places they name each other. Those that are free
/// are linked by their left children.
#[derive(Drop)]
pub struct CellTree {
    pub nodes: NodeList,
    pub root: u32,
    pub free: u32,
    pub freed: usize,
}

impl CellTree {
    /// A tree of no cells, in a list of no nodes. It takes no memory.
    pub fn new(nodes: NodeList) -> CellTree
        requires { nodes.items ≡ [] }
        ensures whole { (width : ℕ) → IsWhole width result }
        ensures rows { (width : ℕ) → rows_of width (tree_of result) ≡ [] }
        ensures freed { result.freed ≡ 0 }
        ensures nodes { result.nodes ≡ nodes }
    {
        CellTree {
            nodes,
            root: NONE,
            free: NONE,
            freed: 0,
        }
    }

    /// Writes the entry. It takes no memory, and two nodes at most.
    pub fn absorb(&mut self, width: u8, entry: &Entry)
        requires width { width ≤ 128 }
        requires whole { IsWhole width self.old }
        requires within { IsWithin width 0 0 entry.now }
        requires room { 2 ≤ spare_nodes self.old }
        requires fits { entry.now.bits ≤ self.old.nodes.highest }
        ensures whole { IsWhole width self.new }
        ensures rows { rows_of width (tree_of self.new)
            ≡ rows_written (change_for width entry.now) (rows_of width (tree_of self.old)) }
        ensures spare { spare_nodes self.old ≤ spare_nodes self.new + 2 }
        ensures highest { self.new.nodes.highest ≡ self.old.nodes.highest }
    {
        self.fill(width, 2);
        self.root = self.write(width, self.root, 0, 0, entry);
    }

    /// Writes the entry into the tree that begins at this node and lies in the block of `depth`
    /// bits from `low` on. Answers where the tree begins then.
    pub fn write(&mut self, width: u8, at: u32, low: u128, depth: u8, entry: &Entry) -> u32
        requires width { width ≤ 128 }
        requires ready { IsReady self.old width at low depth }
        requires within { IsWithin width low depth entry.now }
        requires whole { cleared width depth low ≡ low }
        requires room { 2 ≤ self.old.freed }
        requires fits { entry.now.bits ≤ self.old.nodes.highest }
        ensures results { (ready : IsReady self.old width at low depth)
            → Results self.old self.new width low depth ready.tree ready.free result
            (rows_written (change_for width entry.now) (rows_of width ready.tree)) 2 }
        ensures root { self.new.root ≡ self.old.root }
        ensures room { self.new.nodes.room ≡ self.old.nodes.room }
        ensures highest { self.new.nodes.highest ≡ self.old.nodes.highest }
    {
        if at == NONE {
            return self.hang(width, low, depth, entry);
        }
        let node = self.nodes.get(at);
        if node.entry.len > entry.len {
            return self.put_over(width, at, low, depth, entry);
        }
        if !node.entry.covers(width, entry.bits) {
            return self.put_beside(width, at, low, depth, entry);
        }
        if node.entry.len == entry.len {
            self.set_entry(at, entry);
            return self.tidy(at);
        }
        let middle = node.entry.bits + half(width - node.entry.len);
        if entry.bits < middle {
            let child = self.write(width, node.left, node.entry.bits, node.entry.len + 1, entry);
            self.set_left(at, child);
            return self.tidy(at);
        }
        let child = self.write(width, node.right, middle, node.entry.len + 1, entry);
        self.set_right(at, child);
        self.tidy(at)
    }

    /// A tree of the entry alone, or of no node where that is empty.
    fn hang(&mut self, width: u8, low: u128, depth: u8, entry: &Entry) -> u32
        requires ready { IsReady self.old width 4294967295 low depth }
        requires within { IsWithin width low depth entry.now }
        requires room { 1 ≤ self.old.freed }
        requires fits { entry.now.bits ≤ self.old.nodes.highest }
        ensures results { (ready : IsReady self.old width 4294967295 low depth)
            → Results self.old self.new width low depth ready.tree ready.free result
            (rows_written (change_for width entry.now) (rows_of width ready.tree)) 1 }
        ensures root { self.new.root ≡ self.old.root }
        ensures room { self.new.nodes.room ≡ self.old.nodes.room }
        ensures highest { self.new.nodes.highest ≡ self.old.nodes.highest }
    {
        if entry.is_empty() {
            return NONE;
        }
        self.take(Node::leaf(*entry))
    }

    /// Writes an entry that is shorter than the node, and so is above it or beside it.
    fn put_over(&mut self, width: u8, at: u32, low: u128, depth: u8, entry: &Entry) -> u32
        requires width { width ≤ 128 }
        requires ready { IsReady self.old width at low depth }
        requires at { at < length self.old.nodes.items }
        requires within { IsWithin width low depth entry.now }
        requires whole { cleared width depth low ≡ low }
        requires longer { (other : Node)
            → entry.now.len < (slice_index_or self.old.nodes.items at other).entry.len }
        requires room { 2 ≤ self.old.freed }
        requires fits { entry.now.bits ≤ self.old.nodes.highest }
        ensures results { (ready : IsReady self.old width at low depth)
            → Results self.old self.new width low depth ready.tree ready.free result
            (rows_written (change_for width entry.now) (rows_of width ready.tree)) 2 }
        ensures root { self.new.root ≡ self.old.root }
        ensures room { self.new.nodes.room ≡ self.old.nodes.room }
        ensures highest { self.new.nodes.highest ≡ self.old.nodes.highest }
    {
        let node = self.nodes.get(at);
        if !entry.covers(width, node.entry.bits) {
            return self.put_beside(width, at, low, depth, entry);
        }
        if entry.is_empty() {
            return at;
        }
        let middle = entry.bits + half(width - entry.len);
        if node.entry.bits < middle {
            return self.take(Node {
                entry: *entry,
                left: at,
                right: NONE,
            });
        }
        self.take(Node {
            entry: *entry,
            left: NONE,
            right: at,
        })
    }

    /// Takes a node that is free.
    fn take(&mut self, node: Node) -> u32
        requires within { self.old.free < length self.old.nodes.items }
        requires some { 0 < self.old.freed }
        requires fits { node.entry.bits ≤ self.old.nodes.highest }
        ensures place { result ≡ self.old.free }
        ensures nodes { self.new.nodes.items ≡ slice_set self.old.nodes.items self.old.free node }
        ensures free { (other : Node)
            → self.new.free ≡ (slice_index_or self.old.nodes.items self.old.free other).left }
        ensures freed { self.new.freed + 1 ≡ self.old.freed }
        ensures root { self.new.root ≡ self.old.root }
        ensures room { self.new.nodes.room ≡ self.old.nodes.room }
        ensures highest { self.new.nodes.highest ≡ self.old.nodes.highest }
    {
        let place = self.free;
        self.free = self.nodes.get(place).left;
        self.nodes.set(place, node);
        self.freed -= 1;
        place
    }

    /// Links a node to those that are free.
    fn give(&mut self, place: u32)
        requires within { place < length self.old.nodes.items }
        requires few { self.old.freed < 2 ^ 32 }
        ensures nodes { (other : Node) → self.new.nodes.items ≡ slice_set self.old.nodes.items place
            (record (slice_index_or self.old.nodes.items place other) { left = self.old.free }) }
        ensures free { self.new.free ≡ place }
        ensures freed { self.new.freed ≡ self.old.freed + 1 }
        ensures root { self.new.root ≡ self.old.root }
        ensures room { self.new.nodes.room ≡ self.old.nodes.room }
        ensures highest { self.new.nodes.highest ≡ self.old.nodes.highest }
    {
        let mut node = self.nodes.get(place);
        node.left = self.free;
        self.nodes.set(place, node);
        self.free = place;
        self.freed += 1;
    }

    /// Gives the node another entry.
    fn set_entry(&mut self, at: u32, entry: &Entry)
        requires within { at < length self.old.nodes.items }
        requires fits { entry.now.bits ≤ self.old.nodes.highest }
        ensures nodes { (other : Node) → self.new.nodes.items ≡ slice_set self.old.nodes.items at
            (record (slice_index_or self.old.nodes.items at other) { entry = entry.now }) }
        ensures free { self.new.free ≡ self.old.free }
        ensures freed { self.new.freed ≡ self.old.freed }
        ensures root { self.new.root ≡ self.old.root }
        ensures room { self.new.nodes.room ≡ self.old.nodes.room }
        ensures highest { self.new.nodes.highest ≡ self.old.nodes.highest }
    {
        let mut node = self.nodes.get(at);
        node.entry = *entry;
        self.nodes.set(at, node);
    }

    /// Gives the node another child on the left.
    fn set_left(&mut self, at: u32, child: u32)
        requires { at < length self.old.nodes.items }
        ensures nodes { (other : Node) → self.new.nodes.items ≡ slice_set self.old.nodes.items at
            (record (slice_index_or self.old.nodes.items at other) { left = child }) }
        ensures free { self.new.free ≡ self.old.free }
        ensures freed { self.new.freed ≡ self.old.freed }
        ensures root { self.new.root ≡ self.old.root }
        ensures room { self.new.nodes.room ≡ self.old.nodes.room }
        ensures highest { self.new.nodes.highest ≡ self.old.nodes.highest }
    {
        let mut node = self.nodes.get(at);
        node.left = child;
        self.nodes.set(at, node);
    }

    /// Gives the node another child on the right.
    fn set_right(&mut self, at: u32, child: u32)
        requires { at < length self.old.nodes.items }
        ensures nodes { (other : Node) → self.new.nodes.items ≡ slice_set self.old.nodes.items at
            (record (slice_index_or self.old.nodes.items at other) { right = child }) }
        ensures free { self.new.free ≡ self.old.free }
        ensures freed { self.new.freed ≡ self.old.freed }
        ensures root { self.new.root ≡ self.old.root }
        ensures room { self.new.nodes.room ≡ self.old.nodes.room }
        ensures highest { self.new.nodes.highest ≡ self.old.nodes.highest }
    {
        let mut node = self.nodes.get(at);
        node.right = child;
        self.nodes.set(at, node);
    }

    /// Gives the node back where it has no cell and parts nothing. Answers where its tree begins
    /// then.
    fn tidy(&mut self, at: u32) -> u32
        requires ready { (width low depth : ℕ) × IsReady self.old width at low depth }
        requires at { at < length self.old.nodes.items }
        ensures results { (width low depth : ℕ) → (ready : IsReady self.old width at low depth)
            → Results self.old self.new width low depth ready.tree ready.free result
            (rows_of width ready.tree) 0 }
        ensures root { self.new.root ≡ self.old.root }
        ensures room { self.new.nodes.room ≡ self.old.nodes.room }
        ensures highest { self.new.nodes.highest ≡ self.old.nodes.highest }
    {
        let node = self.nodes.get(at);
        if !node.entry.is_empty() {
            return at;
        }
        if node.left == NONE {
            self.give(at);
            return node.right;
        }
        if node.right == NONE {
            self.give(at);
            return node.left;
        }
        at
    }

    /// Writes an entry beside the node: where it is not empty, both are put below their fork.
    fn put_beside(&mut self, width: u8, at: u32, low: u128, depth: u8, entry: &Entry) -> u32
        requires width { width ≤ 128 }
        requires ready { IsReady self.old width at low depth }
        requires at { at < length self.old.nodes.items }
        requires within { IsWithin width low depth entry.now }
        requires whole { cleared width depth low ≡ low }
        requires beside { (other : Node)
            → AreApart width (slice_index_or self.old.nodes.items at other).entry entry.now }
        requires room { 2 ≤ self.old.freed }
        requires fits { entry.now.bits ≤ self.old.nodes.highest }
        ensures results { (ready : IsReady self.old width at low depth)
            → Results self.old self.new width low depth ready.tree ready.free result
            (rows_written (change_for width entry.now) (rows_of width ready.tree)) 2 }
        ensures root { self.new.root ≡ self.old.root }
        ensures room { self.new.nodes.room ≡ self.old.nodes.room }
        ensures highest { self.new.nodes.highest ≡ self.old.nodes.highest }
    {
        let node = self.nodes.get(at);
        if entry.is_empty() {
            return at;
        }
        if entry.bits < node.entry.bits {
            let fork = fork_of(width, low, depth, entry, &node.entry);
            return self.join_left(at, fork, entry);
        }
        let fork = fork_of(width, low, depth, &node.entry, entry);
        self.join_right(at, fork, entry)
    }

    /// Puts the entry on the left of the fork, and the tree on its right.
    fn join_left(&mut self, at: u32, fork: Entry, entry: &Entry) -> u32
        requires ready { (width low depth : ℕ) × IsReady self.old width at low depth }
        requires room { 2 ≤ self.old.freed }
        requires fork { fork.bits ≤ self.old.nodes.highest }
        requires fits { entry.now.bits ≤ self.old.nodes.highest }
        ensures results { (width low depth : ℕ) → IsWithin width low depth fork
            → IsWithin width fork.bits (fork.len + 1) entry.now
            → (ready : IsReady self.old width at (fork.bits + size width (fork.len + 1)) (fork.len + 1))
            → Results self.old self.new width low depth ready.tree ready.free result
            (own_rows width fork ++ ((own_rows width entry.now ++ []) ++ rows_of width ready.tree)) 2 }
        ensures root { self.new.root ≡ self.old.root }
        ensures room { self.new.nodes.room ≡ self.old.nodes.room }
        ensures highest { self.new.nodes.highest ≡ self.old.nodes.highest }
    {
        let top = self.take(Node {
            entry: fork,
            left: NONE,
            right: at,
        });
        let leaf = self.take(Node::leaf(*entry));
        self.set_left(top, leaf);
        top
    }

    /// Puts the tree on the left of the fork, and the entry on its right.
    fn join_right(&mut self, at: u32, fork: Entry, entry: &Entry) -> u32
        requires ready { (width low depth : ℕ) × IsReady self.old width at low depth }
        requires room { 2 ≤ self.old.freed }
        requires fork { fork.bits ≤ self.old.nodes.highest }
        requires fits { entry.now.bits ≤ self.old.nodes.highest }
        ensures results { (width low depth : ℕ) → IsWithin width low depth fork
            → IsWithin width (fork.bits + size width (fork.len + 1)) (fork.len + 1) entry.now
            → (ready : IsReady self.old width at fork.bits (fork.len + 1))
            → Results self.old self.new width low depth ready.tree ready.free result
            (own_rows width fork ++ (rows_of width ready.tree ++ (own_rows width entry.now ++ []))) 2 }
        ensures root { self.new.root ≡ self.old.root }
        ensures room { self.new.nodes.room ≡ self.old.nodes.room }
        ensures highest { self.new.nodes.highest ≡ self.old.nodes.highest }
    {
        let top = self.take(Node {
            entry: fork,
            left: at,
            right: NONE,
        });
        let leaf = self.take(Node::leaf(*entry));
        self.set_right(top, leaf);
        top
    }
}

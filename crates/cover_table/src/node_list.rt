//! The nodes of a tree by their numbers, with room for more of them.
ghost use Rattle.std.specs.Prelude.{◌≡◌, [], ◌∷◌, ◌++◌, ◌+◌, ◌≤◌, ◌<◌, OnOk, OnErr, length, slice_index_or, slice_set};
ghost use Rattle.cover_table.specs.NodeLists.{capacity_of, highest_of, stored};

use crate::nodes::{NONE, Node};
use crate::slots::Slot;
use std::alloc::Global;
use std::marker::Model;
use urpf_base::OutOfMemory;

/// The nodes of a tree. Contracts see the list, how many more nodes can be added without memory,
/// and the highest address of the family. Room is made ahead of its use, and no memory is touched
/// for it until then.
#[derive(Drop)]
pub struct NodeList {
    store: Store,
    room: usize,
}

/// The nodes of a tree of IPv4, or of one of IPv6.
#[derive(Drop)]
pub enum Store {
    Short(Vec<Slot<u32>>),
    Long(Vec<Slot<u128>>),
}

impl Model for NodeList {
    ghost use Rattle.std.specs.Prelude.{◌+◌, ◌≤◌, length};
    ghost use Rattle.cover_table.specs.NodeLists.{NodeState, capacity_of, highest_of, stored};

    ghost Value = { NodeState };

    ghost view = { λ l. record { items = stored l.store; room = l.room; highest = highest_of l.store } };

    ghost invariant = { λ l. (length (stored l.store) + l.room ≤ capacity_of l.store)
        × (length (stored l.store) + l.room ≤ 4294967295) };
}

impl NodeList {
    /// No nodes of IPv4, and no room. It takes no memory.
    pub fn short(alloc: Global) -> NodeList
        ensures items { result.items ≡ [] }
        ensures room { result.room ≡ 0 }
        ensures highest { result.highest ≡ 4294967295 }
    {
        NodeList {
            store: Store::Short(Vec::new(alloc)),
            room: 0,
        }
    }

    /// No nodes of IPv6, and no room. It takes no memory.
    pub fn long(alloc: Global) -> NodeList
        ensures items { result.items ≡ [] }
        ensures room { result.room ≡ 0 }
        ensures highest { result.highest ≡ 340282366920938463463374607431768211455 }
    {
        NodeList {
            store: Store::Long(Vec::new(alloc)),
            room: 0,
        }
    }

    /// How many more nodes can be added without memory.
    pub fn room(&self) -> usize
        ensures value { result ≡ self.now.room }
        ensures numbers { length self.now.items + result ≤ 4294967295 }
    {
        self.room
    }

    /// The node with this number.
    #[inline]
    pub fn get(&self, at: u32) -> Node
        requires { at < length self.now.items }
        ensures node { result ≡ slice_index_or self.now.items at result }
        ensures fits { result.entry.bits ≤ self.now.highest }
    {
        match &self.store {
            Store::Short(slots) => {
                let slot = slots[at as usize];
                slot.node(wide(slot.bits))
            }
            Store::Long(slots) => {
                let slot = slots[at as usize];
                slot.node(slot.bits)
            }
        }
    }

    /// Writes the node with this number.
    #[inline]
    pub fn set(&mut self, at: u32, node: Node)
        requires within { at < length self.old.items }
        requires fits { node.entry.bits ≤ self.old.highest }
        ensures items { self.new.items ≡ slice_set self.old.items at node }
        ensures room { self.new.room ≡ self.old.room }
        ensures highest { self.new.highest ≡ self.old.highest }
    {
        self.store.set(at, &node);
    }

    /// Adds a node, for which there is room. Answers its number.
    pub fn push(&mut self, node: Node) -> u32
        requires some { 0 < self.old.room }
        requires fits { node.entry.bits ≤ self.old.highest }
        ensures place { result ≡ length self.old.items }
        ensures items { self.new.items ≡ self.old.items ++ node ∷ [] }
        ensures room { self.new.room + 1 ≡ self.old.room }
        ensures highest { self.new.highest ≡ self.old.highest }
        ensures numbers { length self.new.items ≤ 4294967295 }
    {
        let place = self.store.len() as u32;
        self.store.push(&node);
        self.room -= 1;
        place
    }

    /// Makes room for so many nodes. It is refused where memory is, and where there would be no
    /// numbers for them.
    pub fn make_room(&mut self, nodes: usize) -> Result<(), OutOfMemory>
        ensures room { OnOk result (nodes ≤ self.new.room) }
        ensures kept { self.old.room ≤ self.new.room }
        ensures items { self.new.items ≡ self.old.items }
        ensures highest { self.new.highest ≡ self.old.highest }
        ensures err { OnErr result (self.new.room ≡ self.old.room) }
        ensures missing { OnErr result (self.old.room < nodes) }
    {
        if nodes <= self.room {
            return Ok(());
        }
        if nodes > NONE as usize - self.store.len() {
            return Err(OutOfMemory);
        }
        self.store.reserve(nodes)?;
        self.room = nodes;
        Ok(())
    }

    /// Gives up room, so that there is no more than this.
    pub fn lower_room(&mut self, room: usize)
        requires { room ≤ self.old.room }
        ensures items { self.new.items ≡ self.old.items }
        ensures room { self.new.room ≡ room }
        ensures highest { self.new.highest ≡ self.old.highest }
    {
        self.room = room;
    }
}

impl Store {
    /// How many nodes there are.
    fn len(&self) -> usize
        ensures { result ≡ length (stored self.now) }
    {
        match self {
            Store::Short(slots) => slots.len(),
            Store::Long(slots) => slots.len(),
        }
    }

    /// Writes the node with this number.
    #[inline]
    fn set(&mut self, at: u32, node: &Node)
        requires within { at < length (stored self.old) }
        requires fits { node.now.entry.bits ≤ highest_of self.old }
        ensures items { stored self.new ≡ slice_set (stored self.old) at node.now }
        ensures capacity { capacity_of self.new ≡ capacity_of self.old }
        ensures highest { highest_of self.new ≡ highest_of self.old }
    {
        match self {
            Store::Short(slots) => {
                slots[at as usize] = Slot::of(node.entry.bits as u32, node);
            }
            Store::Long(slots) => {
                slots[at as usize] = Slot::of(node.entry.bits, node);
            }
        }
    }

    /// Adds a node, for which there is memory.
    fn push(&mut self, node: &Node)
        requires room { length (stored self.old) < capacity_of self.old }
        requires fits { node.now.entry.bits ≤ highest_of self.old }
        ensures items { stored self.new ≡ stored self.old ++ node.now ∷ [] }
        ensures capacity { capacity_of self.new ≡ capacity_of self.old }
        ensures highest { highest_of self.new ≡ highest_of self.old }
    {
        match self {
            Store::Short(slots) => {
                slots.push_reserved(Slot::of(node.entry.bits as u32, node));
            }
            Store::Long(slots) => {
                slots.push_reserved(Slot::of(node.entry.bits, node));
            }
        }
    }

    /// Takes memory for so many nodes more.
    fn reserve(&mut self, more: usize) -> Result<(), OutOfMemory>
        ensures room { OnOk result (length (stored self.new) + more ≤ capacity_of self.new) }
        ensures kept { capacity_of self.old ≤ capacity_of self.new }
        ensures items { stored self.new ≡ stored self.old }
        ensures highest { highest_of self.new ≡ highest_of self.old }
        ensures missing { OnErr result (capacity_of self.old < length (stored self.old) + more) }
    {
        let made = match self {
            Store::Short(slots) => slots.try_reserve(more),
            Store::Long(slots) => slots.try_reserve(more),
        };
        let Ok(()) = made else {
            return Err(OutOfMemory);
        };
        Ok(())
    }
}

/// An address of IPv4 as a number of 128 bits.
#[inline]
fn wide(bits: u32) -> u128
    ensures value { result ≡ bits }
    ensures within { result ≤ 4294967295 }
{
    u128::from(bits)
}

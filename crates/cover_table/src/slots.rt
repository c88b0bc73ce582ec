//! The memory of a node, which takes 32 octets where addresses have 32 bits, and 48 where they have
//! 128.
ghost use Rattle.std.specs.Prelude.{◌≡◌};
ghost use Rattle.cover_table.specs.NodeLists.{node_with, slot_of};

use crate::nodes::{Entry, Node};
use urpf_base::Mask;

/// A node whose address is a number of this type. The fields stand in the order in which they leave
/// no gaps.
#[derive(Clone, Copy)]
pub struct Slot<B> {
    pub f: Mask,
    pub a: Mask,
    pub bits: B,
    pub left: u32,
    pub right: u32,
    pub len: u8,
    pub z: bool,
}

impl<B: Copy> Slot<B> {
    /// The slot of a node, with this as its address.
    #[inline]
    pub fn of(bits: B, node: &Node) -> Slot<B>
        ensures { result ≡ slot_of bits node.now }
    {
        Slot {
            f: node.entry.f,
            a: node.entry.a,
            bits,
            left: node.left,
            right: node.right,
            len: node.entry.len,
            z: node.entry.z,
        }
    }

    /// The node, with this as its address.
    #[inline]
    pub fn node(&self, bits: u128) -> Node
        ensures { result ≡ node_with bits self.now }
    {
        let entry = Entry {
            bits,
            f: self.f,
            a: self.a,
            len: self.len,
            z: self.z,
        };
        Node {
            entry,
            left: self.left,
            right: self.right,
        }
    }
}

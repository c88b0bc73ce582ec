//! A set of interfaces, in a fixed number of bits, so that it never wants memory.
ghost use Rattle.std.specs.Prelude.{◌≡◌, ◌≢◌, ◌<◌, ◌⊎◌, ◌↔◌, ◌^◌, ℕ, IsTrue};
ghost use Rattle.urpf_base.specs.Masks.{InMask};

use crate::interfaces::{IFACE_LIMIT, IfaceId};
use std::marker::Model;

/// A set of interfaces. Contracts see it as a number whose bit i tells whether interface i is there.
#[derive(Clone, Copy, Debug, PartialEq, Eq)]
pub struct Mask {
    bits: u64,
}

impl Model for Mask {
    ghost use Rattle.std.specs.Prelude.{ℕ, ◌<◌, ◌^◌};

    ghost Value = { ℕ };

    ghost view = { λ m. m.bits };

    ghost invariant = { λ m. m.bits < 2 ^ 64 };

    ghost inverse = { λ n. record { bits = n } };
}

impl Mask {
    /// The set without members.
    pub fn empty() -> Mask
        ensures { result ≡ 0 }
    {
        Mask { bits: 0 }
    }

    /// Whether the interface is in the set.
    pub fn has(&self, id: IfaceId) -> bool
        ensures value { IsTrue result ↔ InMask self.now id }
        ensures within { (i : ℕ) → InMask self.now i → i < IFACE_LIMIT }
    {
        self.bits >> id.number() & 1 == 1
    }

    /// The set and the interface.
    pub fn with(self, id: IfaceId) -> Mask
        ensures added { InMask result id }
        ensures others { (i : ℕ) → i ≢ id → (InMask result i ↔ InMask self i) }
    {
        Mask {
            bits: self.bits | 1 << id.number(),
        }
    }

    /// The set without the interface.
    pub fn without(self, id: IfaceId) -> Mask
        ensures gone { InMask result id → ⊥ }
        ensures others { (i : ℕ) → i ≢ id → (InMask result i ↔ InMask self i) }
    {
        Mask {
            bits: self.bits & !(1 << id.number()),
        }
    }

    /// The members of both sets.
    pub fn union(self, other: Mask) -> Mask
        ensures { (i : ℕ) → (InMask result i ↔ (InMask self i ⊎ InMask other i)) }
    {
        Mask {
            bits: self.bits | other.bits,
        }
    }

    /// The members that both sets have.
    pub fn intersection(self, other: Mask) -> Mask
        ensures { (i : ℕ) → (InMask result i ↔ (InMask self i × InMask other i)) }
    {
        Mask {
            bits: self.bits & other.bits,
        }
    }

    /// Whether the set has no member.
    pub fn is_empty(&self) -> bool
        ensures { IsTrue result ↔ (self.now ≡ 0) }
    {
        self.bits == 0
    }
}

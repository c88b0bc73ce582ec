//! The interfaces of a router, each by its number.
ghost use Rattle.std.specs.Prelude.{◌≡◌, ◌<◌};
ghost use Rattle.std.specs.Option.{SomeIff};

use std::marker::Model;

/// The number that no interface reaches: there are at most 64, from 0 on. Our own choice.
pub const IFACE_LIMIT: u16 = 64;

/// An interface, by its number below 64.
#[derive(Clone, Copy, Debug, PartialEq, Eq, PartialOrd, Ord)]
pub struct IfaceId {
    number: u16,
}

impl Model for IfaceId {
    ghost use Rattle.std.specs.Prelude.{ℕ, ◌<◌};

    ghost Value = { ℕ };

    ghost view = { λ i. i.number };

    ghost invariant = { λ i. i.number < 64 };

    ghost inverse = { λ n. record { number = n } };
}

impl IfaceId {
    /// The interface with this number. None where the number is 64 or more.
    pub fn new(number: u16) -> Option<IfaceId>
        ensures { SomeIff result (number < IFACE_LIMIT) number }
    {
        if number >= IFACE_LIMIT {
            return None;
        }
        Some(IfaceId { number })
    }

    /// The number of the interface.
    pub fn number(&self) -> u16
        ensures value { result ≡ self.now }
        ensures below { result < IFACE_LIMIT }
    {
        self.number
    }
}

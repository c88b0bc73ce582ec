//! Routes as the source sets see them.
ghost use Rattle.std.specs.Prelude.{◌≡◌, ◌↔◌, IsTrue, Some};

use urpf_base::{IfaceId, Origin, Prefix};

/// A route of an Adj-RIB-In: its prefix, the interface of its session, and its origin AS, or none
/// where its path ends in no single AS.
#[derive(Clone, Copy, Debug, PartialEq, Eq, PartialOrd, Ord)]
pub struct Row {
    pub prefix: Prefix,
    pub iface: IfaceId,
    pub origin: Origin,
}

impl Row {
    /// Whether it is of the prefix.
    pub(crate) fn is_of(&self, prefix: &Prefix) -> bool
        ensures { IsTrue result ↔ (self.now.prefix ≡ prefix.now) }
    {
        self.prefix == *prefix
    }

    /// Whether it has this origin.
    pub(crate) fn is_from(&self, origin: u32) -> bool
        ensures { IsTrue result ↔ (self.now.origin ≡ Some origin) }
    {
        self.origin == Some(origin)
    }
}

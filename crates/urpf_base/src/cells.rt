//! What the sets of the router say of one prefix, and lists of such cells.
ghost use Rattle.std.specs.Prelude.{◌≡◌, [], ◌∷◌, ◌++◌, OnOk, OnErr};
ghost use Rattle.urpf_base.specs.Cells.{AllBefore, AreAscending};

use crate::masks::Mask;
use crate::outside::OutOfMemory;
use crate::prefixes::Prefix;
use std::alloc::Global;
use std::marker::Model;

/// What the sets say of one prefix.
#[derive(Clone, Copy, Debug, PartialEq, Eq)]
pub struct Cell {
    /// The interfaces that have a route to the prefix (RFC 3704, section 2.3).
    pub f: Mask,
    /// The customer interfaces whose RPF list by Algorithm A has it (RFC 8704, section 3.1.1).
    pub a: Mask,
    /// Whether the RPF list by Algorithm B has it (RFC 8704, section 3.4).
    pub z: bool,
}

/// A prefix, and the cell that it has now.
#[derive(Clone, Copy, Debug, PartialEq, Eq)]
pub struct CellChange {
    pub prefix: Prefix,
    pub cell: Cell,
}

/// Cells that changed, ascending by prefix. Contracts see the list.
#[derive(Drop)]
pub struct Changes {
    items: Vec<CellChange>,
}

impl Model for Changes {
    ghost use Rattle.std.specs.Prelude.{List};
    ghost use Rattle.urpf_base.specs.declared.cells.CellChange.{CellChange};
    ghost use Rattle.urpf_base.specs.Cells.{AreAscending};

    ghost Value = { List CellChange };

    ghost view = { λ c. c.items.items };

    ghost invariant = { λ c. AreAscending c.items.items };
}

impl Changes {
    /// No change. It takes no memory.
    pub fn new(alloc: Global) -> Changes
        ensures { result ≡ [] }
    {
        Changes {
            items: Vec::new(alloc),
        }
    }

    /// Appends a change, whose prefix comes behind all that are there. Where memory is refused
    /// nothing is changed.
    pub fn push(&mut self, change: CellChange) -> Result<(), OutOfMemory>
        requires { AllBefore self.old change.prefix }
        ensures ok { OnOk result (self.new ≡ self.old ++ change ∷ []) }
        ensures err { OnErr result (self.new ≡ self.old) }
    {
        let Ok(()) = self.items.push(change) else {
            return Err(OutOfMemory);
        };
        Ok(())
    }

    /// The changes in their order.
    pub fn items(&self) -> &[CellChange]
        ensures value { result.now ≡ self.now }
        ensures ascending { AreAscending self.now }
    {
        &self.items
    }
}

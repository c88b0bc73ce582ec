//! What an engine of the source sets answers, however it keeps them.
ghost use Rattle.std.specs.Prelude.{◌≡◌, ◌⊎◌, ◌<◌, ◌≤◌, ◌^◌, IfOk, IsOk, OnOk, OnErr, Ok, true, false, length};
ghost use Rattle.urpf_base.specs.Lists.{Has};
ghost use Rattle.rpf_plain.specs.Cells.{AreChanges, IsCell};
ghost use Rattle.rpf_plain.specs.Engine.{AddsPair, AddsRow, EngineState, IsDrained, RemovesPair, RemovesRow, SetsRole};
ghost use Rattle.rpf_plain.specs.Rows.{repeats, row_of};
ghost use Rattle.rpf_plain.specs.World.{IsConfigured};

use urpf_base::{Cell, Changes, IfaceId, Origin, OutOfMemory, Prefix, Role};

/// An engine of the sets of feasible paths, of loose mode, and of Algorithms A and B (RFC 8704,
/// sections 3.1.1 and 3.4, with the pairs of section 3.5). Where a call answers want of memory nothing is changed.
pub trait SetEngine: Drop {
    /// The rows, the roles and the pairs of now, and the table of the cells at the last drain.
    ghost state: { Self → EngineState };

    /// Adds one row. It may be there already, since several sessions of an interface may have the
    /// same route. A refusal comes only where it is not there, or is there 2^32 times or more.
    fn add_row(&mut self, iface: IfaceId, prefix: Prefix, origin: Origin) -> Result<(), OutOfMemory>
        requires configured { IsConfigured (state self.old).world.roles iface }
        requires room { length (state self.old).world.rows < 2 ^ 40 }
        ensures ok { OnOk result (AddsRow (row_of iface prefix origin) (state self.old) (state self.new)) }
        ensures err { OnErr result (state self.new ≡ state self.old) }
        ensures absent { OnErr result ((repeats (state self.old).world.rows (row_of iface prefix origin) ≡ 0)
            ⊎ (2 ^ 32 ≤ repeats (state self.old).world.rows (row_of iface prefix origin))) };

    /// Takes away one such row. It takes no memory.
    fn remove_row(&mut self, iface: IfaceId, prefix: &Prefix, origin: Origin)
        requires { Has (state self.old).world.rows (row_of iface prefix.now origin) }
        ensures { RemovesRow (row_of iface prefix.now origin) (state self.old) (state self.new) };

    /// Gives an interface this role. It is never refused.
    fn set_role(&mut self, iface: IfaceId, role: Role) -> Result<(), OutOfMemory>
        requires { IsConfigured (state self.old).world.roles iface }
        ensures ok { OnOk result (SetsRole iface role (state self.old) (state self.new)) }
        ensures err { OnErr result (state self.new ≡ state self.old) }
        ensures sure { IsOk result };

    /// Adds a pair of a prefix and an AS that may originate it. Whether it is new. A refusal comes only
    /// where it is not there.
    fn add_pair(&mut self, prefix: Prefix, asn: u32) -> Result<bool, OutOfMemory>
        requires { length (state self.old).world.pairs < 2 ^ 40 }
        ensures added { result ≡ Ok true → AddsPair (prefix, asn) (state self.old) (state self.new) }
        ensures there { result ≡ Ok false
            → Has (state self.old).world.pairs (prefix, asn) × (state self.new ≡ state self.old) }
        ensures err { OnErr result (state self.new ≡ state self.old) }
        ensures absent { OnErr result (¬ Has (state self.old).world.pairs (prefix, asn)) };

    /// Takes a pair away. Whether it was there. It takes no memory.
    fn remove_pair(&mut self, prefix: &Prefix, asn: u32) -> bool
        ensures removed { result ≡ true
            → RemovesPair (prefix.now, asn) (state self.old) (state self.new) }
        ensures absent { result ≡ false
            → (¬ Has (state self.old).world.pairs (prefix.now, asn)) × (state self.new ≡ state self.old) };

    /// The cell of a prefix now. It takes no memory.
    fn cell(&self, prefix: &Prefix) -> Cell
        ensures { IsCell (state self.now).world prefix.now result };

    /// The prefixes whose cell is another than at the last drain, each with its cell now.
    fn drain_changes(&mut self) -> Result<Changes, OutOfMemory>
        ensures changes { IfOk result (AreChanges (state self.old).world (state self.old).base) }
        ensures drained { OnOk result (IsDrained (state self.old) (state self.new)) }
        ensures err { OnErr result (state self.new ≡ state self.old) };
}

//! An engine with the numbers of its rows and of its pairs, so that it is never asked to take more
//! than it may have.
ghost use Rattle.std.specs.Prelude.{◌≡◌, ◌⊎◌, ◌<◌, ◌≤◌, ◌^◌, [], OnOk, OnErr, IfOk, IsOk, Ok, true, false, length};
ghost use Rattle.urpf_base.specs.Lists.{Has};
ghost use Rattle.rpf_plain.specs.Engine.{AddsPair, AddsRow, RemovesPair, RemovesRow, SetsRole, IsDrained};
ghost use Rattle.rpf_plain.specs.Cells.{AreChanges};
ghost use Rattle.rpf_plain.specs.Rows.{repeats, row_of};
ghost use Rattle.rpf_plain.specs.World.{IsConfigured};

use rpf_plain::SetEngine;
use std::marker::Model;
use urpf_base::{Changes, IfaceId, Origin, OutOfMemory, Prefix, Role};

/// The most rows that an engine is given: one less than 2^40.
pub const ROWS_MOST: u64 = 0xFF_FFFF_FFFF;

/// The most pairs that an engine is given: one less than 2^40.
pub const PAIRS_MOST: u64 = 0xFF_FFFF_FFFF;

/// An engine, and how many rows and pairs it has. Contracts see what they see of the engine.
#[derive(Drop)]
pub struct CountedEngine<E: SetEngine> {
    engine: E,
    rows: u64,
    pairs: u64,
}

impl<E: SetEngine> Model for CountedEngine<E> {
    ghost use Rattle.std.specs.Prelude.{◌≡◌, length};
    ghost use Rattle.std.specs.Coded.{codes};
    ghost use Rattle.rpf_plain.specs.Engine.{EngineState};
    ghost use Rattle.control_core.specs.EngineRows.{cells_code};

    ghost Value = { EngineState };

    ghost coded = { Prim.hlevel (codes, cells_code) };

    ghost view = { λ c. E.state c.engine };

    ghost invariant = { λ c. (c.rows ≡ length (E.state c.engine).world.rows)
        × (c.pairs ≡ length (E.state c.engine).world.pairs) };
}

impl<E: SetEngine> CountedEngine<E> {
    /// An engine that has no rows and no pairs.
    pub fn new(engine: E) -> CountedEngine<E>
        requires rows { (E.state engine).world.rows ≡ [] }
        requires pairs { (E.state engine).world.pairs ≡ [] }
        ensures { result ≡ E.state engine }
    {
        CountedEngine {
            engine,
            rows: 0,
            pairs: 0,
        }
    }

    /// How many rows there are.
    pub fn rows(&self) -> u64
        ensures { result ≡ length self.now.world.rows }
    {
        self.rows
    }

    /// How many pairs there are.
    pub fn pairs(&self) -> u64
        ensures { result ≡ length self.now.world.pairs }
    {
        self.pairs
    }

    /// Adds one row. A refusal comes where there are 2^40 - 1 rows, and else only where the row is not
    /// there, or is there 2^32 times. Nothing is changed then.
    pub fn add_row(
        &mut self,
        iface: IfaceId,
        prefix: Prefix,
        origin: Origin,
    ) -> Result<(), OutOfMemory>
        requires { IsConfigured self.old.world.roles iface }
        ensures ok { OnOk result (AddsRow (row_of iface prefix origin) self.old self.new) }
        ensures err { OnErr result (self.new ≡ self.old) }
        ensures absent { OnErr result (length self.old.world.rows < ROWS_MOST
            → (repeats self.old.world.rows (row_of iface prefix origin) ≡ 0)
            ⊎ (2 ^ 32 ≤ repeats self.old.world.rows (row_of iface prefix origin))) }
        ensures full { OnOk result (length self.old.world.rows < ROWS_MOST) }
    {
        if self.rows >= ROWS_MOST {
            return Err(OutOfMemory);
        }
        self.engine.add_row(iface, prefix, origin)?;
        self.rows += 1;
        Ok(())
    }

    /// Takes away one such row. It takes no memory.
    pub fn remove_row(&mut self, iface: IfaceId, prefix: &Prefix, origin: Origin)
        requires { Has self.old.world.rows (row_of iface prefix.now origin) }
        ensures { RemovesRow (row_of iface prefix.now origin) self.old self.new }
    {
        self.engine.remove_row(iface, prefix, origin);
        self.rows -= 1;
    }

    /// Gives an interface this role. It is never refused.
    pub fn set_role(&mut self, iface: IfaceId, role: Role) -> Result<(), OutOfMemory>
        requires { IsConfigured self.old.world.roles iface }
        ensures ok { OnOk result (SetsRole iface role self.old self.new) }
        ensures err { OnErr result (self.new ≡ self.old) }
        ensures sure { IsOk result }
    {
        self.engine.set_role(iface, role)
    }

    /// Adds a pair. Whether it is new. A refusal comes where there are 2^40 - 1 pairs, and else only
    /// where the pair is not there. Nothing is changed then.
    pub fn add_pair(&mut self, prefix: Prefix, asn: u32) -> Result<bool, OutOfMemory>
        ensures added { result ≡ Ok true → AddsPair (prefix, asn) self.old self.new }
        ensures there { result ≡ Ok false
            → Has self.old.world.pairs (prefix, asn) × (self.new ≡ self.old) }
        ensures err { OnErr result (self.new ≡ self.old) }
        ensures absent { OnErr result (length self.old.world.pairs < PAIRS_MOST
            → ¬ Has self.old.world.pairs (prefix, asn)) }
        ensures full { OnOk result (length self.old.world.pairs < PAIRS_MOST) }
    {
        if self.pairs >= PAIRS_MOST {
            return Err(OutOfMemory);
        }
        if !self.engine.add_pair(prefix, asn)? {
            return Ok(false);
        }
        self.pairs += 1;
        Ok(true)
    }

    /// Takes a pair away. Whether it was there. It takes no memory.
    pub fn remove_pair(&mut self, prefix: &Prefix, asn: u32) -> bool
        ensures removed { result ≡ true → RemovesPair (prefix.now, asn) self.old self.new }
        ensures absent { result ≡ false
            → (¬ Has self.old.world.pairs (prefix.now, asn)) × (self.new ≡ self.old) }
    {
        if !self.engine.remove_pair(prefix, asn) {
            return false;
        }
        self.pairs -= 1;
        true
    }

    /// The prefixes whose cell is another than at the last drain, each with its cell now.
    pub fn drain_changes(&mut self) -> Result<Changes, OutOfMemory>
        ensures changes { IfOk result (AreChanges self.old.world self.old.base) }
        ensures drained { OnOk result (IsDrained self.old self.new) }
        ensures err { OnErr result (self.new ≡ self.old) }
    {
        self.engine.drain_changes()
    }
}

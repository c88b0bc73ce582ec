//! An engine that is filled with rows.
ghost use Rattle.std.specs.Prelude.{◌≡◌, [], IfOk, OnErr, length};
ghost use Rattle.rpf_plain.specs.World.{roles_of};

use router_config::{Edit, Kinds};
use rpf_plain::{PlainEngine, Row, SetEngine};
use std::alloc::Global;
use urpf_base::{Changes, IfaceId, OutOfMemory, Role};

/// An engine, and how many rows were added to it.
#[derive(Drop)]
pub struct Filled {
    engine: PlainEngine,
    kinds: Kinds,
    rows: u64,
    ghost count: { rows ≡ length engine.world.rows },
    ghost roles: { engine.world.roles ≡ roles_of kinds },
}

impl Filled {
    /// An engine of these interfaces without rows.
    pub fn new(alloc: Global, kinds: Kinds) -> Result<Filled, OutOfMemory>
        ensures { IfOk result (λ filled. filled.engine.world.rows ≡ []) }
    {
        let engine = PlainEngine::new(alloc, &kinds)?;
        Ok(Filled {
            engine,
            kinds,
            rows: 0,
        })
    }

    /// Adds a row of a configured interface. Nothing is added on another.
    pub fn add(&mut self, row: &Row) -> Result<(), OutOfMemory>
        ensures { OnErr result (self.new.engine ≡ self.old.engine) }
    {
        if self.kinds.kind(row.iface).is_none() || self.rows >= 0xff_ffff_ffff {
            return Ok(());
        }
        self.engine.add_row(row.iface, row.prefix, row.origin)?;
        self.rows += 1;
        Ok(())
    }

    /// Gives a configured interface a role.
    pub fn set_role(&mut self, iface: IfaceId, role: Role) -> Result<(), OutOfMemory>
        ensures { OnErr result (self.new.engine ≡ self.old.engine) }
    {
        if self.kinds.kind(iface).is_none() {
            return Ok(());
        }
        self.engine.set_role(iface, role)?;
        self.kinds.apply(&Edit::Role(iface, role));
        Ok(())
    }

    /// How many cells changed since the drain before.
    pub fn drain(&mut self) -> Result<u64, OutOfMemory>
        ensures { OnErr result (self.new.engine ≡ self.old.engine) }
    {
        Ok(self.changes()?.items().len() as u64)
    }

    /// The cells that changed since the drain before.
    pub fn changes(&mut self) -> Result<Changes, OutOfMemory>
        ensures { OnErr result (self.new.engine ≡ self.old.engine) }
    {
        self.engine.drain_changes()
    }

    /// How many rows there are.
    pub fn rows(&self) -> u64
        ensures { result ≡ length self.now.engine.world.rows }
    {
        self.rows
    }
}

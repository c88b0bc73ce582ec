//! The engine that keeps rows in an ordered map and pairs in an ordered set, and computes the sets
//! anew in each drain.
ghost use Rattle.std.specs.Prelude.{◌≡◌, IfOk};
ghost use Rattle.rpf_plain.specs.Engine.{new_engine};
ghost use Rattle.rpf_plain.specs.World.{roles_of};

use crate::differences::differences;
use crate::engine::SetEngine;
use crate::one_cell::cell_now;
use crate::row_map::RowMap;
use crate::rows::Row;
use crate::table::table_of;
use origin_pairs::PairSet;
use prefix_map::PrefixMap;
use router_config::{Edit, Kinds};
use std::alloc::Global;
use std::marker::Model;
use urpf_base::{Cell, Changes, IfaceId, Origin, OutOfMemory, Prefix, Role};

/// An engine of the source sets that computes them anew from its rows and pairs. Where nothing was
/// changed since the last drain it knows so, and there is nothing to compute.
#[derive(Drop)]
pub struct PlainEngine {
    alloc: Global,
    rows: RowMap,
    pairs: PairSet,
    kinds: Kinds,
    base: PrefixMap<Cell>,
    drained: bool,
}

impl Model for PlainEngine {
    ghost use Rattle.std.specs.Prelude.{IsTrue};
    ghost use Rattle.rpf_plain.specs.Cells.{IsTable};
    ghost use Rattle.rpf_plain.specs.Engine.{EngineState};
    ghost use Rattle.rpf_plain.specs.Kept.{all_rows, engine_code};
    ghost use Rattle.rpf_plain.specs.World.{world_for};

    ghost Value = { EngineState };

    ghost coded = { engine_code };

    ghost view = { λ e. record { world = world_for e.kinds (all_rows e.rows) e.pairs; base = e.base } };

    ghost invariant = { λ e. IsTrue e.drained → IsTable (world_for e.kinds (all_rows e.rows) e.pairs) e.base };
}

impl PlainEngine {
    /// An engine of these interfaces without rows and pairs.
    pub fn new(alloc: Global, roles: &Kinds) -> Result<PlainEngine, OutOfMemory>
        ensures { IfOk result (λ engine. engine ≡ new_engine (roles_of roles.now)) }
    {
        let kinds = roles.copied()?;
        Ok(PlainEngine {
            alloc,
            rows: RowMap::new(alloc),
            pairs: PairSet::new(alloc),
            kinds,
            base: PrefixMap::new(alloc),
            drained: true,
        })
    }
}

impl SetEngine for PlainEngine {
    ghost state = { λ e. e };

    fn add_row(
        &mut self,
        iface: IfaceId,
        prefix: Prefix,
        origin: Origin,
    ) -> Result<(), OutOfMemory> {
        self.drained = false;
        self.rows.add(Row {
            prefix,
            iface,
            origin,
        })
    }

    fn remove_row(&mut self, iface: IfaceId, prefix: &Prefix, origin: Origin) {
        self.drained = false;
        self.rows.take(&Row {
            prefix: *prefix,
            iface,
            origin,
        });
    }

    fn set_role(&mut self, iface: IfaceId, role: Role) -> Result<(), OutOfMemory> {
        self.drained = false;
        self.kinds.apply(&Edit::Role(iface, role));
        Ok(())
    }

    fn add_pair(&mut self, prefix: Prefix, asn: u32) -> Result<bool, OutOfMemory> {
        self.drained = false;
        self.pairs.add(&prefix, asn)
    }

    fn remove_pair(&mut self, prefix: &Prefix, asn: u32) -> bool {
        self.drained = false;
        self.pairs.remove(prefix, asn)
    }

    fn cell(&self, prefix: &Prefix) -> Cell {
        cell_now(&self.rows, &self.pairs, &self.kinds, prefix)
    }

    fn drain_changes(&mut self) -> Result<Changes, OutOfMemory> {
        if self.drained {
            return Ok(Changes::new(self.alloc));
        }
        let cells = table_of(self.alloc, &self.rows, &self.pairs, &self.kinds)?;
        let changes = differences(self.alloc, &self.base, &cells)?;
        self.base = cells;
        self.drained = true;
        Ok(changes)
    }
}

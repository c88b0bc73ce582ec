//! An engine, and beside it the plain lists of its rows and pairs.
ghost use Rattle.std.specs.Prelude.{◌≡◌, ◌≤◌, ◌+◌, length, vec_len};
ghost use Rattle.rpf_plain.specs.Rows.{AreSameRows};
ghost use Rattle.rpf_plain.specs.World.{roles_of};

use router_config::{Edit, Kinds, read_config};
use rpf_plain::{PlainEngine, Row, SetEngine};
use std::alloc::Global;
use std::process::Abort;
use urpf_base::{IfaceId, OutOfMemory, Prefix, Role};

/// Interfaces 0 and 1 of customers, 2 of a peer and 3 of a provider.
const FOUR: &str = r#"
interface = [
  {number = 0, role = "customer", mode = "efp-a"},
  {number = 1, role = "customer", mode = "efp-a"},
  {number = 2, role = "peer", mode = "loose"},
  {number = 3, role = "provider", mode = "loose"},
]
session = [{interface = 0, peer_as = 64501}]
"#;

/// As many rows, and as many pairs, as are ever added.
const MOST: usize = 1000;

/// An engine, the rows and pairs that were added to it, and its interfaces.
#[derive(Drop)]
pub struct Fed {
    pub engine: PlainEngine,
    pub rows: Vec<Row>,
    pub pairs: Vec<(Prefix, u32)>,
    pub kinds: Kinds,
    ghost same: { AreSameRows engine.world.rows rows.items },
    ghost few: { length engine.world.pairs ≤ vec_len pairs },
    ghost roles: { engine.world.roles ≡ roles_of kinds },
}

impl Fed {
    /// An engine of these interfaces without rows and pairs.
    pub fn new(alloc: Global, kinds: Kinds) -> Result<Fed, OutOfMemory> {
        let engine = PlainEngine::new(alloc, &kinds)?;
        Ok(Fed {
            engine,
            rows: Vec::new(alloc),
            pairs: Vec::new(alloc),
            kinds,
        })
    }

    /// Adds a row of a configured interface. A refusal changes nothing.
    pub fn add(&mut self, row: &Row) -> Result<(), OutOfMemory> {
        if self.kinds.kind(row.iface).is_none() {
            return Ok(());
        }
        if self.rows.len() >= MOST {
            return Ok(());
        }
        let Ok(()) = self.rows.push(*row) else {
            return Err(OutOfMemory);
        };
        let Ok(()) = self.engine.add_row(row.iface, row.prefix, row.origin) else {
            self.rows.pop();
            return Err(OutOfMemory);
        };
        Ok(())
    }

    /// Takes away the row that was added last.
    pub fn take_last(&mut self) {
        let Some(row) = self.rows.pop() else {
            return;
        };
        self.engine.remove_row(row.iface, &row.prefix, row.origin);
    }

    /// Adds a pair. Whether it is new. A refusal changes nothing.
    pub fn add_pair(&mut self, prefix: Prefix, asn: u32) -> Result<bool, OutOfMemory> {
        if self.pairs.len() >= MOST {
            return Ok(false);
        }
        let Ok(()) = self.pairs.push((prefix, asn)) else {
            return Err(OutOfMemory);
        };
        match self.engine.add_pair(prefix, asn) {
            Ok(true) => Ok(true),
            other => {
                self.pairs.pop();
                other
            }
        }
    }

    /// Takes a pair away. Whether it was there.
    pub fn remove_pair(&mut self, prefix: &Prefix, asn: u32) -> bool {
        let there = self.engine.remove_pair(prefix, asn);
        if there {
            forget(&mut self.pairs, prefix, asn);
        }
        there
    }

    /// Gives a configured interface a role. A refusal changes nothing.
    pub fn set_role(&mut self, iface: IfaceId, role: Role) -> Result<(), OutOfMemory> {
        if self.kinds.kind(iface).is_none() {
            return Ok(());
        }
        self.engine.set_role(iface, role)?;
        self.kinds.apply(&Edit::Role(iface, role));
        Ok(())
    }
}

/// Takes the pair out of the list.
fn forget(pairs: &mut Vec<(Prefix, u32)>, prefix: &Prefix, asn: u32)
    ensures { vec_len pairs.old ≤ vec_len pairs.new + 1 }
{
    let place = pairs
        .iter()
        .position(|pair| pair.0 == *prefix && pair.1 == asn);
    if let Some(place) = place {
        pairs.remove(place);
    }
}

/// The four interfaces.
pub fn four(rt: &(impl Abort + AllocGlobal)) -> Kinds {
    let config = read_config(rt.alloc(), FOUR.as_bytes()).expect(rt, "a configuration");
    config.kinds().expect(rt, "memory")
}

/// An engine of the four interfaces.
pub fn empty_fed(rt: &(impl Abort + AllocGlobal)) -> Fed {
    Fed::new(rt.alloc(), four(rt)).expect(rt, "memory")
}

//! The control of the router: the sessions that it serves, the engine of the source sets, and the
//! marks of what it published.

use crate::counted_engine::CountedEngine;
use crate::limits::Limits;
use crate::marks::Marks;
use crate::peering::Peering;
use router_config::Kinds;
use rpf_plain::SetEngine;
use std::alloc::Global;
use std::marker::Model;

/// Sessions with their routes, an engine with the rows of them, and a mark for each publication. Once
/// it has answered want of memory it answers so to every later call that can. Contracts see it as a
/// record of these.
#[derive(Drop)]
pub struct Control<E: SetEngine> {
    pub(crate) alloc: Global,
    pub(crate) sets: CountedEngine<E>,
    pub(crate) peers: Vec<Peering>,
    pub(crate) kinds: Kinds,
    pub(crate) edits: u64,
    pub(crate) marks: Marks,
    pub(crate) limits: Limits,
    pub(crate) exhausted: bool,
}

impl<E: SetEngine> Model for Control<E> {
    ghost use Rattle.std.specs.Coded.{codes};
    ghost use Rattle.std.specs.Prelude.{map};
    ghost use Rattle.adj_rib.specs.Routes.{routes_code};
    ghost use Rattle.control_core.specs.EngineRows.{cells_code};
    ghost use Rattle.control_core.specs.Kept.{IsKept};
    ghost use Rattle.control_core.specs.Peers.{peer_of};
    ghost use Rattle.control_core.specs.States.{ControlState};

    ghost Value = { ControlState };

    ghost coded = { Prim.hlevel (codes, routes_code, cells_code) };

    ghost view = { λ c. record {
      peers = map peer_of c.peers.items;
      kinds = c.kinds;
      edits = c.edits;
      engine = c.sets;
      marks = c.marks;
      limits = c.limits;
      exhausted = c.exhausted;
    } };

    ghost invariant = { λ c. IsKept (map peer_of c.peers.items) c.kinds c.sets c.limits };
}

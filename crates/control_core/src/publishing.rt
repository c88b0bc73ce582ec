//! A publication: a mark, and a batch of the cells that changed since the last one, under the next
//! number.
ghost use Rattle.std.specs.Prelude.{◌≡◌, ◌^◌, ◌<◌, IfOk, OnErr, map};
ghost use Rattle.control_core.specs.Controls.{PublishesParts};
ghost use Rattle.control_core.specs.Worlds.{last_number};

use crate::counted_engine::CountedEngine;
use crate::marks::{Mark, Marks};
use crate::peering::Peering;
use cover_table::Batch;
use router_config::Kinds;
use rpf_plain::SetEngine;
use std::alloc::Global;
use urpf_base::OutOfMemory;

/// Makes the next mark, after so many edits, and the batch of the cells that changed since the last
/// one. All memory but that of the changes is taken first. Where memory is refused nothing is
/// changed.
pub fn publish_cells<E: SetEngine>(
    alloc: Global,
    peers: &[Peering],
    edits: u64,
    kinds: &Kinds,
    sets: &mut CountedEngine<E>,
    marks: &mut Marks,
) -> Result<Batch, OutOfMemory>
    requires { last_number marks.old < 2 ^ 32 }
    ensures ok { IfOk result (PublishesParts (map (λ p. p.session.items) peers.now) edits kinds.now
        sets.old sets.new marks.old marks.new) }
    ensures marks { OnErr result (marks.new ≡ marks.old) }
    ensures sets { OnErr result (sets.new ≡ sets.old) }
    ensures world { sets.new.world ≡ sets.old.world }
{
    let number = marks.last_number() + 1;
    let kinds = kinds.copied()?;
    marks.push(Mark::new(number, edits, items_of(alloc, peers)?))?;
    let Ok(changes) = sets.drain_changes() else {
        marks.take_back();
        return Err(OutOfMemory);
    };
    Ok(Batch {
        number,
        kinds,
        changes,
    })
}

/// How many items each session took.
fn items_of(alloc: Global, peers: &[Peering]) -> Result<Vec<u64>, OutOfMemory>
    ensures { IfOk result (λ items. items.items ≡ map (λ p. p.session.items) peers.now) }
{
    let mut items = Vec::new(alloc);
    for peer in peers {
        let Ok(()) = items.push(peer.session.items()) else {
            return Err(OutOfMemory);
        };
    }
    Ok(items)
}

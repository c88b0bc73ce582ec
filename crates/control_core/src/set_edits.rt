//! What a table of pairs and an edit make of the engine: pairs go in and out, and roles change.
ghost use Rattle.std.specs.Prelude.{◌≡◌, ℕ, OnErr, OnOk, []};
ghost use Rattle.urpf_base.specs.declared.kinds.Role.{Role};
ghost use Rattle.origin_pairs.specs.Pairs.{IsPairSet};
ghost use Rattle.router_config.specs.declared.edits.Edit.{Edit};
ghost use Rattle.rpf_plain.specs.World.{IsConfigured};
ghost use Rattle.control_core.specs.Controls.{CanBeRefused, EditsSets};
ghost use Rattle.control_core.specs.Loads.{GrowsPairs};

use crate::counted_engine::CountedEngine;
use roa_irr::Pairs;
use router_config::Edit;
use rpf_plain::SetEngine;
use urpf_base::{OutOfMemory, Prefix};

/// Adds the pairs of a table to an engine that has none. Where memory is refused some of them may
/// be there.
pub fn add_pairs<E: SetEngine>(
    sets: &mut CountedEngine<E>,
    pairs: &Pairs,
) -> Result<(), OutOfMemory>
    requires { sets.old.world.pairs ≡ [] }
    ensures ok { OnOk result (IsPairSet pairs.now.pairs sets.new.world.pairs) }
    ensures grows { GrowsPairs sets.old sets.new }
{
    for k in 0..pairs.len() {
        let (prefix, asn) = pairs.pair(k);
        sets.add_pair(prefix, asn)?;
    }
    Ok(())
}

/// Gives the interface of the edit its role, or adds or removes its pair. Nothing is changed where
/// the edit names a mode, and where memory is refused, which it can be for a pair that is added alone.
pub fn edit_sets<E: SetEngine>(sets: &mut CountedEngine<E>, edit: &Edit) -> Result<(), OutOfMemory>
    requires { (iface : ℕ) (role : Role) → edit.now ≡ Edit.Role iface role
        → IsConfigured sets.old.world.roles iface }
    ensures ok { OnOk result (EditsSets edit.now sets.old sets.new) }
    ensures err { OnErr result (sets.new ≡ sets.old) }
    ensures memory { OnErr result (CanBeRefused edit.now sets.old) }
{
    match *edit {
        Edit::Role(iface, role) => sets.set_role(iface, role),
        Edit::Mode(_, _) => Ok(()),
        Edit::PairAdd(prefix, asn) => add_one(sets, prefix, asn),
        Edit::PairDel(prefix, asn) => {
            remove_one(sets, &prefix, asn);
            Ok(())
        }
    }
}

/// Adds a pair, which may be there already.
fn add_one<E: SetEngine>(
    sets: &mut CountedEngine<E>,
    prefix: Prefix,
    asn: u32,
) -> Result<(), OutOfMemory>
    ensures ok { OnOk result (EditsSets (Edit.PairAdd prefix asn) sets.old sets.new) }
    ensures err { OnErr result (sets.new ≡ sets.old) }
    ensures memory { OnErr result (CanBeRefused (Edit.PairAdd prefix asn) sets.old) }
{
    sets.add_pair(prefix, asn)?;
    Ok(())
}

/// Takes a pair away, which may not be there.
fn remove_one<E: SetEngine>(sets: &mut CountedEngine<E>, prefix: &Prefix, asn: u32)
    ensures { EditsSets (Edit.PairDel prefix.now asn) sets.old sets.new }
{
    sets.remove_pair(prefix, asn);
}

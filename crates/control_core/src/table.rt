//! The routes of one session after one more UPDATE (RFC 4271, sections 3.2 and 4.3).
ghost use Rattle.std.specs.Prelude.{◌≡◌, ◌∷◌, ◌++◌, [], List, OnOk, Some, None, option_copied};
ghost use Rattle.urpf_base.specs.Address.{Block};
ghost use Rattle.urpf_base.specs.Lists.{Has};
ghost use Rattle.urpf_base.specs.RouteUpdates.{RouteUpdate};
ghost use Rattle.adj_rib.specs.Routes.{Routes, routes_at};
ghost use Rattle.control_core.specs.Table.{Applies, Follows, HoldsRoutes};

use adj_rib::AdjRib;
use bgp_update::{Announced, UpdateView, Withdrawn};
use urpf_base::{Origin, OutOfMemory};

/// Withdraws and then announces, so that a prefix in both counts as announced. After want of memory
/// some of the prefixes may be announced and others not.
pub fn apply_update(rib: &mut AdjRib, update: &UpdateView<'_>) -> Result<(), OutOfMemory>
    ensures { OnOk result (Applies update.now rib.old rib.new) }
{
    withdraw(rib, update.withdrawn());
    announce(rib, update.announced(), update.origin())?;
    Ok(())
}

/// Takes one item: an UPDATE, or None for a KEEPALIVE, which changes nothing.
pub fn apply_item(rib: &mut AdjRib, item: Option<&UpdateView<'_>>) -> Result<(), OutOfMemory>
    ensures { OnOk result (Follows (option_copied item.entry) rib.old rib.new) }
{
    match item {
        Some(update) => apply_update(rib, update),
        None => Ok(()),
    }
}

/// Takes the prefixes out.
fn withdraw(rib: &mut AdjRib, prefixes: Withdrawn<'_>)
    ensures gone { (p : Block) → Has prefixes.entry p → routes_at rib.new p ≡ None }
    ensures others { (p : Block) → (Has prefixes.entry p → ⊥)
        → routes_at rib.new p ≡ routes_at rib.old p }
{
    for prefix in prefixes {
        rib.remove(&prefix);
    }
}

/// Gives each of the prefixes the origin.
fn announce(rib: &mut AdjRib, prefixes: Announced<'_>, origin: Origin) -> Result<(), OutOfMemory>
    ensures there { OnOk result ((p : Block) → Has prefixes.entry p
        → routes_at rib.new p ≡ Some origin) }
    ensures others { (p : Block) → (Has prefixes.entry p → ⊥)
        → routes_at rib.new p ≡ routes_at rib.old p }
{
    for prefix in prefixes {
        rib.set(prefix, origin)?;
    }
    Ok(())
}

/// No UPDATE leaves no route, and a table that has what some UPDATEs leave has, after one more, what
/// they and that one leave.
pub fn one_more_update()
    ensures none { (routes : Routes) → ((p : Block) → routes_at routes p ≡ None)
        → HoldsRoutes [] routes }
    ensures more { (updates : List RouteUpdate) (u : RouteUpdate) (old new : Routes)
        → HoldsRoutes updates old → Applies u old new → HoldsRoutes (updates ++ u ∷ []) new }
{}

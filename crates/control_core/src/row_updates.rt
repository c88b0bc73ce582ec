//! An UPDATE changes the routes of a session, and the rows of the engine with them (RFC 4271, section
//! 3.2). What takes memory comes first, and is taken back where memory is refused; what takes none
//! comes then, so that an UPDATE counts whole or not at all.
ghost use Rattle.std.specs.Prelude.{◌≡◌, ◌↔◌, Some, None, OnOk, OnErr, IsSome, IsTrue};
ghost use Rattle.urpf_base.specs.Address.{Block};
ghost use Rattle.urpf_base.specs.Lists.{Has};
ghost use Rattle.adj_rib.specs.Routes.{ChangesAt, Routes, routes_at};
ghost use Rattle.rpf_plain.specs.Engine.{AddsRow, EngineState};
ghost use Rattle.rpf_plain.specs.Rows.{AreSameRows, row_of};
ghost use Rattle.rpf_plain.specs.World.{IsConfigured};
ghost use Rattle.control_core.specs.EngineRows.{HasRows, HasRowsOf, HasSession, IsLogged, IsOpenLog, KeepsSets};
ghost use Rattle.control_core.specs.EngineRows.{RowsFollow, TakesRows, replaced_rows, session_rows};
ghost use Rattle.control_core.specs.Table.{Applies};

use crate::counted_engine::CountedEngine;
use adj_rib::AdjRib;
use bgp_update::{Announced, UpdateView};
use rpf_plain::SetEngine;
use std::alloc::Global;
use urpf_base::{IfaceId, Origin, OutOfMemory, Prefix};

/// A prefix whose route was changed, with the origin that it had before, where it was there.
type Changed = (Prefix, Option<Origin>);

/// Applies an UPDATE of a session on this interface: it withdraws, and announces, and a prefix in
/// both counts as announced. Where memory is refused nothing is changed.
pub fn apply_with_rows<E: SetEngine>(
    alloc: Global,
    rib: &mut AdjRib,
    sets: &mut CountedEngine<E>,
    iface: IfaceId,
    update: &UpdateView<'_>,
) -> Result<(), OutOfMemory>
    requires { HasSession iface rib.old sets.old }
    ensures ok { OnOk result (Applies update.now rib.old rib.new) }
    ensures err { OnErr result (rib.new ≡ rib.old) }
    ensures rows { RowsFollow iface rib.old rib.new sets.old sets.new }
{
    let mut log = Vec::new(alloc);
    let origin = update.origin();
    if let Err(OutOfMemory) = announce(rib, sets, iface, update.announced(), origin, &mut log) {
        take_back(rib, sets, iface, origin, &mut log);
        return Err(OutOfMemory);
    }
    drop_replaced(sets, iface, &log);
    withdraw(rib, sets, iface, update);
    Ok(())
}

/// Gives each of the prefixes the origin, and adds its row. The rows of the routes that are replaced
/// stay, and the log says what the routes were.
fn announce<E: SetEngine>(
    rib: &mut AdjRib,
    sets: &mut CountedEngine<E>,
    iface: IfaceId,
    prefixes: Announced<'_>,
    origin: Origin,
    log: &mut Vec<Changed>,
) -> Result<(), OutOfMemory>
    requires configured { IsConfigured sets.old.world.roles iface }
    ensures there { OnOk result ((p : Block) → Has prefixes.entry p
        → routes_at rib.new p ≡ Some origin) }
    ensures others { (p : Block) → (Has prefixes.entry p → ⊥)
        → routes_at rib.new p ≡ routes_at rib.old p }
    ensures logged { (before : Routes) (engine : EngineState)
        → IsLogged iface origin log.old.items before rib.old engine sets.old
        → IsLogged iface origin log.new.items before rib.new engine sets.new }
    ensures sets { KeepsSets sets.old sets.new }
{
    for prefix in prefixes {
        announce_one(rib, sets, iface, prefix, origin, log)?;
    }
    Ok(())
}

/// Gives the prefix the origin, and adds its row, where it does not have the origin yet.
fn announce_one<E: SetEngine>(
    rib: &mut AdjRib,
    sets: &mut CountedEngine<E>,
    iface: IfaceId,
    prefix: Prefix,
    origin: Origin,
    log: &mut Vec<Changed>,
) -> Result<(), OutOfMemory>
    requires configured { IsConfigured sets.old.world.roles iface }
    ensures ok { OnOk result (ChangesAt prefix (Some origin) rib.old rib.new) }
    ensures err { OnErr result (rib.new ≡ rib.old) }
    ensures logged { (before : Routes) (engine : EngineState)
        → IsLogged iface origin log.old.items before rib.old engine sets.old
        → IsLogged iface origin log.new.items before rib.new engine sets.new }
    ensures sets { KeepsSets sets.old sets.new }
{
    let old = rib.get(&prefix);
    if has_origin(old, origin) {
        return Ok(());
    }
    let Ok(()) = log.push((prefix, old)) else {
        return Err(OutOfMemory);
    };
    if let Err(OutOfMemory) = add_route(rib, sets, iface, prefix, origin) {
        log.pop();
        return Err(OutOfMemory);
    }
    Ok(())
}

/// Whether the route is there and has this origin.
fn has_origin(route: Option<Origin>, origin: Origin) -> bool
    ensures { IsTrue result ↔ (route ≡ Some origin) }
{
    match route {
        Some(held) => held == origin,
        None => false,
    }
}

/// Gives the prefix the origin, and adds its row. Where memory is refused nothing is changed.
fn add_route<E: SetEngine>(
    rib: &mut AdjRib,
    sets: &mut CountedEngine<E>,
    iface: IfaceId,
    prefix: Prefix,
    origin: Origin,
) -> Result<(), OutOfMemory>
    requires configured { IsConfigured sets.old.world.roles iface }
    ensures ok { OnOk result (ChangesAt prefix (Some origin) rib.old rib.new) }
    ensures added { OnOk result (AddsRow (row_of iface prefix origin) sets.old sets.new) }
    ensures err { OnErr result (rib.new ≡ rib.old) }
    ensures same { OnErr result (AreSameRows sets.new.world.rows sets.old.world.rows) }
    ensures sets { KeepsSets sets.old sets.new }
{
    sets.add_row(iface, prefix, origin)?;
    if let Err(OutOfMemory) = rib.set(prefix, origin) {
        sets.remove_row(iface, &prefix, origin);
        return Err(OutOfMemory);
    }
    Ok(())
}

/// Takes back what was announced, from the last change to the first. It takes no memory.
fn take_back<E: SetEngine>(
    rib: &mut AdjRib,
    sets: &mut CountedEngine<E>,
    iface: IfaceId,
    origin: Origin,
    log: &mut Vec<Changed>,
)
    requires { IsOpenLog iface origin log.old.items rib.old sets.old }
    ensures { (before : Routes) (begun : EngineState)
        → IsLogged iface origin log.old.items before rib.old begun sets.old
        → (rib.new ≡ before) × RowsFollow iface before before begun sets.new }
{
    while let Some(change) = log.pop() {
        restore(rib, &change.0, change.1);
        sets.remove_row(iface, &change.0, origin);
    }
}

/// Gives a prefix that is there what it had before.
fn restore(rib: &mut AdjRib, prefix: &Prefix, old: Option<Origin>)
    requires { IsSome (routes_at rib.old prefix.now) }
    ensures { ChangesAt prefix.now old rib.old rib.new }
{
    match old {
        Some(origin) => {
            rib.replace(prefix, origin);
        }
        None => {
            rib.remove(prefix);
        }
    }
}

/// Takes away the rows of the routes that were replaced.
fn drop_replaced<E: SetEngine>(sets: &mut CountedEngine<E>, iface: IfaceId, log: &[Changed])
    requires { HasRows (replaced_rows iface log.now) sets.old }
    ensures { TakesRows (replaced_rows iface log.now) sets.old sets.new }
{
    for change in log {
        if let Some(origin) = change.1 {
            sets.remove_row(iface, &change.0, origin);
        }
    }
}

/// Takes the prefixes out that are withdrawn and not announced, with their rows.
fn withdraw<E: SetEngine>(
    rib: &mut AdjRib,
    sets: &mut CountedEngine<E>,
    iface: IfaceId,
    update: &UpdateView<'_>,
)
    requires { HasRowsOf iface rib.old sets.old }
    ensures gone { (p : Block) → Has update.now.withdrawn p → (Has update.now.announced p → ⊥)
        → routes_at rib.new p ≡ None }
    ensures announced { (p : Block) → Has update.now.announced p
        → routes_at rib.new p ≡ routes_at rib.old p }
    ensures silent { (p : Block) → (Has update.now.withdrawn p → ⊥)
        → routes_at rib.new p ≡ routes_at rib.old p }
    ensures rows { RowsFollow iface rib.old rib.new sets.old sets.new }
{
    for prefix in update.withdrawn() {
        withdraw_one(rib, sets, iface, update, &prefix);
    }
}

/// Takes the prefix out, with its row, where it is not announced.
fn withdraw_one<E: SetEngine>(
    rib: &mut AdjRib,
    sets: &mut CountedEngine<E>,
    iface: IfaceId,
    update: &UpdateView<'_>,
    prefix: &Prefix,
)
    requires { HasRowsOf iface rib.old sets.old }
    ensures gone { (Has update.now.announced prefix.now → ⊥) → ChangesAt prefix.now None rib.old rib.new }
    ensures kept { Has update.now.announced prefix.now → rib.new ≡ rib.old }
    ensures rows { RowsFollow iface rib.old rib.new sets.old sets.new }
{
    if announces(update, prefix) {
        return;
    }
    remove_route(rib, sets, iface, prefix);
}

/// Whether the UPDATE announces the prefix.
fn announces(update: &UpdateView<'_>, prefix: &Prefix) -> bool
    ensures { IsTrue result ↔ Has update.now.announced prefix.now }
{
    for announced in update.announced() {
        if announced == *prefix {
            return true;
        }
    }
    false
}

/// Takes the prefix out, with its row, where it is there.
fn remove_route<E: SetEngine>(
    rib: &mut AdjRib,
    sets: &mut CountedEngine<E>,
    iface: IfaceId,
    prefix: &Prefix,
)
    requires { HasRowsOf iface rib.old sets.old }
    ensures gone { ChangesAt prefix.now None rib.old rib.new }
    ensures rows { RowsFollow iface rib.old rib.new sets.old sets.new }
{
    if let Some(origin) = rib.remove(prefix) {
        sets.remove_row(iface, prefix, origin);
    }
}

/// Takes all routes of a session on this interface out, with their rows. It takes no memory.
pub fn drop_routes<E: SetEngine>(rib: &mut AdjRib, sets: &mut CountedEngine<E>, iface: IfaceId)
    requires { HasRowsOf iface rib.old sets.old }
    ensures none { (p : Block) → routes_at rib.new p ≡ None }
    ensures rows { RowsFollow iface rib.old rib.new sets.old sets.new }
{
    drop_rows(rib, sets, iface);
    rib.clear();
}

/// Takes the rows of the routes away.
fn drop_rows<E: SetEngine>(rib: &AdjRib, sets: &mut CountedEngine<E>, iface: IfaceId)
    requires { HasRowsOf iface rib.now sets.old }
    ensures { TakesRows (session_rows iface rib.now) sets.old sets.new }
{
    for (prefix, origin) in rib.pairs() {
        sets.remove_row(iface, &prefix, origin);
    }
}

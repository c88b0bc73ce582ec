//! One item of a session: its row of the table comes to pass, and its routes are changed or emptied,
//! with their rows in the engine (RFC 4271, sections 3.2 and 8; RFC 4486, section 4).
ghost use Rattle.std.specs.Prelude.{◌≡◌, ◌+◌, ◌^◌, ◌<◌, List, IfOk, OnErr, OnOk, IsTrue};
ghost use Rattle.session_fsm.specs.declared.items.Effect.{Effect};
ghost use Rattle.session_fsm.specs.Items.{IsWhole};
ghost use Rattle.session_fsm.specs.Table.{is_established};
ghost use Rattle.control_core.specs.Effects.{HoldsAll};
ghost use Rattle.control_core.specs.EngineRows.{HasSession, RowsFollow};
ghost use Rattle.control_core.specs.ItemSteps.{Changed, IsMessageItem, TookRow};

use crate::counted_engine::CountedEngine;
use crate::row_updates::{apply_with_rows, drop_routes};
use adj_rib::AdjRib;
use bgp_update::UpdateView;
use rpf_plain::SetEngine;
use session_fsm::{Effect, Item, Session};
use std::alloc::Global;
use urpf_base::{IfaceId, OutOfMemory, ResetCause};

/// Takes one item, and answers the cause where it ended the session. A reset empties the routes.
/// Where memory is refused, which it can be for an UPDATE alone, the item is not taken.
pub fn take_item<E: SetEngine>(
    alloc: Global,
    session: &mut Session,
    rib: &mut AdjRib,
    sets: &mut CountedEngine<E>,
    item: Item<'_>,
) -> Result<Option<ResetCause>, OutOfMemory>
    requires counted { session.old.items < 2 ^ 63 }
    requires whole { IsWhole item }
    requires ready { HasSession session.old.config.iface rib.old sets.old }
    ensures took { (before : List Effect) → HoldsAll before rib.old
        → IfOk result (TookRow session.old item.entry before session.new rib.new) }
    ensures rows { RowsFollow session.old.config.iface rib.old rib.new sets.old sets.new }
    ensures items { OnOk result (session.new.items ≡ session.old.items + 1) }
    ensures config { session.new.config ≡ session.old.config }
    ensures memory { OnErr result (IsMessageItem item.entry) }
    ensures session { OnErr result (session.new ≡ session.old) }
    ensures rib { OnErr result (rib.new ≡ rib.old) }
{
    let before = session.copied();
    let iface = session.config().iface;
    match session.step(item) {
        Effect::Nothing => Ok(None),
        Effect::Advanced => Ok(None),
        Effect::Reset(cause) => {
            drop_routes(rib, sets, iface);
            Ok(Some(cause))
        }
        Effect::Changes(update) => {
            match change(alloc, session, rib, sets, iface, &update) {
                Ok(reset) => Ok(reset),
                Err(OutOfMemory) => {
                    *session = before;
                    Err(OutOfMemory)
                }
            }
        }
    }
}

/// An UPDATE changes the routes of a session on this interface. Where it leaves more prefixes than the
/// maximum, the session ends (RFC 4486, section 4), and the cause is answered.
fn change<E: SetEngine>(
    alloc: Global,
    session: &mut Session,
    rib: &mut AdjRib,
    sets: &mut CountedEngine<E>,
    iface: IfaceId,
    update: &UpdateView<'_>,
) -> Result<Option<ResetCause>, OutOfMemory>
    requires established { IsTrue (is_established session.old.state) }
    requires ready { HasSession iface rib.old sets.old }
    ensures changed { (before : List Effect) → HoldsAll before rib.old
        → IfOk result (Changed session.old update.now before session.new rib.new) }
    ensures rows { RowsFollow iface rib.old rib.new sets.old sets.new }
    ensures items { session.new.items ≡ session.old.items }
    ensures config { session.new.config ≡ session.old.config }
    ensures rib { OnErr result (rib.new ≡ rib.old) }
{
    apply_with_rows(alloc, rib, sets, iface, update)?;
    if rib.len() <= session.config().max as usize {
        return Ok(None);
    }
    drop_routes(rib, sets, iface);
    Ok(Some(session.cease()))
}

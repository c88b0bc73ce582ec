//! The rows of Idle (RFC 4271, section 8.2.2): only the transport coming up does something.
ghost use Rattle.session_fsm.specs.declared.states.State.TheVariants.{Idle};
ghost use Rattle.session_fsm.specs.Table as table;

use crate::items::{Effect, Item};
use crate::outcomes::opened;
use crate::states::State;
use bgp_wire::MsgKind;
use urpf_base::SessionConfig;

/// There is no session until the transport comes up.
pub fn in_idle<'a>(config: &SessionConfig, item: Item<'a>) -> (State, Effect<'a>)
    ensures { table.Step config.now Idle item.entry result }
{
    match item {
        Item::Up => (opened(), Effect::Advanced),
        Item::Down => (State::Idle, Effect::Nothing),
        Item::HeaderFault(_) => (State::Idle, Effect::Nothing),
        Item::Elapsed(_) => (State::Idle, Effect::Nothing),
        Item::Message(MsgKind::Notification, _) => (State::Idle, Effect::Nothing),
        Item::Message(MsgKind::Open, _) => (State::Idle, Effect::Nothing),
        Item::Message(MsgKind::Update, _) => (State::Idle, Effect::Nothing),
        Item::Message(MsgKind::Keepalive, _) => (State::Idle, Effect::Nothing),
    }
}

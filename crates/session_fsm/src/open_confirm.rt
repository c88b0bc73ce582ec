//! The rows of OpenConfirm (RFC 4271, section 8.2.2): the first KEEPALIVE of the peer establishes
//! the session.
ghost use Rattle.session_fsm.specs.declared.states.State.TheVariants.{OpenConfirm};
ghost use Rattle.session_fsm.specs.Items.{IsWhole};
ghost use Rattle.session_fsm.specs.Table as table;

use crate::items::{Effect, Item};
use crate::outcomes::{interruption, unexpected, waited};
use crate::states::{Peer, State, Timer};
use bgp_wire::MsgKind;
use urpf_base::SessionConfig;

/// The first KEEPALIVE of the peer is waited for.
pub fn in_open_confirm<'a>(
    config: &SessionConfig,
    timer: Timer,
    peer: Peer,
    item: Item<'a>,
) -> (State, Effect<'a>)
    requires { IsWhole item }
    ensures { table.Step config.now (OpenConfirm timer peer) item.entry result }
{
    if let Some(outcome) = interruption(item) {
        return outcome;
    }
    match item {
        Item::Elapsed(seconds) => waited(
            timer.expires(seconds),
            State::OpenConfirm(timer.later(seconds), peer),
        ),
        Item::Message(MsgKind::Keepalive, _) => (
            State::Established(timer.restarted(), peer),
            Effect::Advanced,
        ),
        _ => unexpected(),
    }
}

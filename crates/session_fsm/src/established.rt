//! The rows of Established (RFC 4271, section 8.2.2): UPDATEs of the peer come in, and the routes
//! that they change go out, or the first fault of one (RFC 4271, section 6.3).
ghost use Rattle.std.specs.Prelude.{◌⊎◌, ◌≤◌, length};
ghost use Rattle.session_fsm.specs.declared.states.State.TheVariants.{Established};
ghost use Rattle.session_fsm.specs.Items.{IsWhole};
ghost use Rattle.session_fsm.specs.Table as table;

use crate::items::{Effect, Item};
use crate::outcomes::{ended, interruption, unexpected, waited};
use crate::states::{Peer, State, Timer};
use bgp_update::{UPDATE_MESSAGE_ERROR, read_update};
use bgp_wire::MsgKind;
use urpf_base::{ResetCause, SessionConfig};

/// Routes are exchanged.
pub fn in_established<'a>(
    config: &SessionConfig,
    timer: Timer,
    peer: Peer,
    item: Item<'a>,
) -> (State, Effect<'a>)
    requires { IsWhole item }
    ensures { table.Step config.now (Established timer peer) item.entry result }
{
    if let Some(outcome) = interruption(item) {
        return outcome;
    }
    match item {
        Item::Elapsed(seconds) => waited(
            timer.expires(seconds),
            State::Established(timer.later(seconds), peer),
        ),
        Item::Message(MsgKind::Update, body) => after_update(timer, peer, body),
        Item::Message(MsgKind::Keepalive, _) => (
            State::Established(timer.restarted(), peer),
            Effect::Nothing,
        ),
        _ => unexpected(),
    }
}

/// An UPDATE in Established: its first fault ends the session (RFC 4271, section 6.3), and without
/// one the seconds start anew.
fn after_update(timer: Timer, peer: Peer, body: &[u8]) -> (State, Effect<'_>)
    requires { 4 ≤ length body.now }
    ensures { table.Accepts timer peer body.now result ⊎ table.Refuses peer body.now result }
{
    let anew = timer.restarted();
    match read_update(body, peer.width, peer.v6) {
        Ok(update) => (State::Established(anew, peer), Effect::Changes(update)),
        Err(fault) => ended(ResetCause::Fault(UPDATE_MESSAGE_ERROR, fault.sub)),
    }
}

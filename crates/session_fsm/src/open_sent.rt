//! The rows of OpenSent (RFC 4271, section 8.2.2): the OPEN of the peer comes in, and what both
//! sides agree on goes out, or its first fault (RFC 4271, section 6.2).
ghost use Rattle.std.specs.Prelude.{◌≡◌, ◌≤◌, length};
ghost use Rattle.bgp_open.specs.Openings.{open_fault, open_seen};
ghost use Rattle.session_fsm.specs.declared.states.State.TheVariants.{OpenSent};
ghost use Rattle.session_fsm.specs.Agreement as agreement;
ghost use Rattle.session_fsm.specs.Items.{IsWhole};
ghost use Rattle.session_fsm.specs.Table as table;

use crate::items::{Effect, Item};
use crate::outcomes::{ended, interruption, unexpected, waited};
use crate::states::{Peer, State, Timer};
use as_path::Width;
use bgp_open::{OPEN_MESSAGE_ERROR, OpenSeen, read_open};
use bgp_wire::MsgKind;
use urpf_base::{ResetCause, SessionConfig};

/// The OPEN of the peer is waited for.
pub fn in_open_sent<'a>(config: &SessionConfig, timer: Timer, item: Item<'a>) -> (State, Effect<'a>)
    requires { IsWhole item }
    ensures { table.Step config.now (OpenSent timer) item.entry result }
{
    if let Some(outcome) = interruption(item) {
        return outcome;
    }
    match item {
        Item::Elapsed(seconds) => waited(
            timer.expires(seconds),
            State::OpenSent(timer.later(seconds)),
        ),
        Item::Message(MsgKind::Open, body) => after_open(config, body),
        _ => unexpected(),
    }
}

/// An OPEN in OpenSent: its first fault ends the session (RFC 4271, section 6.2), and without one
/// both sides have agreed.
fn after_open<'a>(config: &SessionConfig, body: &[u8]) -> (State, Effect<'a>)
    requires { 10 ≤ length body.now }
    ensures { result ≡ table.after_open config.now (open_seen body.now)
        (open_fault body.now config.now.peer_as) }
{
    match read_open(body, config.peer_as) {
        Ok(seen) => (
            State::OpenConfirm(Timer::new(config.hold.min(seen.hold)), agreed_peer(&seen)),
            Effect::Advanced,
        ),
        Err(fault) => ended(ResetCause::Fault(OPEN_MESSAGE_ERROR, fault.sub)),
    }
}

/// How the UPDATEs of a peer that says this are read.
fn agreed_peer(seen: &OpenSeen) -> Peer
    ensures { result ≡ agreement.agreed_peer seen.now }
{
    Peer {
        width: agreed_width(seen.four_octet),
        v6: seen.v6,
    }
}

/// AS numbers have four octets where the peer sent the capability (RFC 6793, section 4.1).
fn agreed_width(four_octet: bool) -> Width
    ensures { result ≡ agreement.agreed_width four_octet }
{
    if four_octet {
        return Width::Four;
    }
    Width::Two
}

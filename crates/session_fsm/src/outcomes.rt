//! What rows of more than one state give (RFC 4271, sections 6 and 8.2.2).
ghost use Rattle.std.specs.Prelude.{◌≡◌, ◌≤◌, length};
ghost use Rattle.session_fsm.specs.Items as items;
ghost use Rattle.session_fsm.specs.Items.{IsWhole};
ghost use Rattle.session_fsm.specs.Table as table;

use crate::codes::{FINITE_STATE_MACHINE_ERROR, HOLD_TIMER_EXPIRED, UNSPECIFIC};
use crate::items::{Effect, Item};
use crate::states::{LARGE_HOLD_TIME, State, Timer};
use bgp_open::read_notification;
use bgp_wire::{MESSAGE_HEADER_ERROR, MsgKind};
use urpf_base::ResetCause;

/// The transport is up, and the OPEN of the peer is waited for.
pub fn opened() -> State
    ensures { result ≡ table.opened }
{
    State::OpenSent(Timer::new(LARGE_HOLD_TIME))
}

/// The session ends for this cause.
pub fn ended<'a>(cause: ResetCause) -> (State, Effect<'a>)
    ensures { result ≡ table.ended cause }
{
    (State::Idle, Effect::Reset(cause))
}

/// What ends a session whose transport is up, whatever its state: the transport goes down or comes
/// up anew, a header has a fault, or the peer says so. None for every other item.
pub fn interruption<'a>(item: Item<'a>) -> Option<(State, Effect<'a>)>
    requires { IsWhole item }
    ensures { result ≡ table.interruption item.entry }
{
    match item {
        Item::Up => Some((opened(), Effect::Reset(ResetCause::Closed))),
        Item::Down => Some(ended(ResetCause::Closed)),
        Item::HeaderFault(sub) => Some(ended(ResetCause::Fault(MESSAGE_HEADER_ERROR, sub))),
        Item::Message(MsgKind::Notification, body) => Some(ended(notice(body))),
        _ => None,
    }
}

/// The state does not expect the message (RFC 4271, section 6.6).
pub fn unexpected<'a>() -> (State, Effect<'a>)
    ensures { result ≡ table.unexpected }
{
    ended(ResetCause::Fault(FINITE_STATE_MACHINE_ERROR, UNSPECIFIC))
}

/// The session ends where the limit is reached, and else goes on in this state (RFC 4271, section
/// 6.5).
pub fn waited<'a>(expired: bool, stay: State) -> (State, Effect<'a>)
    ensures { result ≡ table.waited expired stay }
{
    if expired {
        return ended(ResetCause::Fault(HOLD_TIMER_EXPIRED, UNSPECIFIC));
    }
    (stay, Effect::Nothing)
}

/// The peer ended the session, with the code and subcode of its NOTIFICATION.
pub fn notice(body: &[u8]) -> ResetCause
    requires { 2 ≤ length body.now }
    ensures { result ≡ items.notice body.now }
{
    let (code, sub) = read_notification(body);
    ResetCause::Notified(code, sub)
}

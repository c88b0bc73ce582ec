//! The table of steps (RFC 4271, sections 6 and 8.2.2): a state and an item come in, the next state
//! and what the item does go out. Each state has a function of its own.
ghost use Rattle.session_fsm.specs.Items.{IsWhole};
ghost use Rattle.session_fsm.specs.Table as table;

use crate::established::in_established;
use crate::idle::in_idle;
use crate::items::{Effect, Item};
use crate::open_confirm::in_open_confirm;
use crate::open_sent::in_open_sent;
use crate::states::State;
use urpf_base::SessionConfig;

/// The row of this state and this item.
pub fn row<'a>(config: &SessionConfig, state: State, item: Item<'a>) -> (State, Effect<'a>)
    requires { IsWhole item }
    ensures { table.Step config.now state item.entry result }
{
    match state {
        State::Idle => in_idle(config, item),
        State::OpenSent(timer) => in_open_sent(config, timer, item),
        State::OpenConfirm(timer, peer) => in_open_confirm(config, timer, peer, item),
        State::Established(timer, peer) => in_established(config, timer, peer, item),
    }
}

//! One BGP-4 session as a machine over items (RFC 4271, sections 6 and 8): in come items, which are
//! whole messages, header faults and the seconds that pass, out goes what each of them does.
//!
//! Four of the six states are here: the transport is either up or down, so that there is no Connect
//! and no Active. What is sent to the peer, and the routes that it gave, are left to the crates
//! above.
#![tactic(auto)]

mod codes;
mod established;
mod idle;
mod items;
mod laws;
mod machine;
mod open_confirm;
mod open_sent;
mod outcomes;
mod rows;
mod states;

pub use codes::{CEASE, FINITE_STATE_MACHINE_ERROR, HOLD_TIMER_EXPIRED, MAXIMUM_PREFIXES_REACHED};
pub use items::{Effect, Item};
pub use laws::{assigned_numbers, one_step};
pub use machine::Session;

//! The body of an UPDATE (RFC 4271, section 4.3): octets come in, and the prefixes that it
//! withdraws and announces with their origin, or its first fault, go out, without memory of their
//! own.
//!
//! ```text
//! body = length (2 octets), withdrawn routes (as many as the length),
//!        length (2), path attributes (as many as the length), NLRI (to the end)
//! ```
#![tactic(auto)]

mod families;
mod laws;
mod layout;
mod reading;
mod routes;
mod subcodes;
mod view;

pub use laws::{assigned_numbers, one_outcome};
pub use reading::{UpdateFault, read_update};
pub use subcodes::UPDATE_MESSAGE_ERROR;
pub use view::{Announced, UpdateView, Withdrawn};

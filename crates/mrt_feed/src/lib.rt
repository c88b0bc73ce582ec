//! MRT recordings (RFC 6396) as feeds of sessions: the octets of a file that a router or a collector
//! wrote come in, and the events of the session with one peer go out.
//!
//! ```text
//! record  = timestamp (4 octets), type (2), subtype (2), length (4), and so many octets
//! session = peer AS and local AS (2 or 4 each), interface (2), family (2), peer address and local
//!           address (4 or 16 each), and then old state (2) and new state (2), or a BGP message
//! ```
#![tactic(auto)]

mod feed;
mod head;
mod laws;
mod layout;
mod opening;
mod progress;
mod record_head;
mod words;

pub use feed::MrtFeed;
pub use laws::assigned_numbers;
pub use words::{MrtSpec, read_mrt_word};

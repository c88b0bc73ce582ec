//! The path attributes of an UPDATE (RFC 4271, section 4.3): the field that holds them comes in,
//! and what the router needs of them, or the first fault of the field, goes out.
//!
//! ```text
//! attributes = attribute ..
//! attribute  = flags (1 octet), type (1), length (1, or 2 by a flag), value (so many octets)
//! ```
#![tactic(auto)]

mod attribute;
mod attrs;
mod demands;
mod laws;
mod slots;
mod subcodes;
mod table;
mod types;
mod values;
mod walking;

pub use attrs::{AttrFault, Attrs};
pub use laws::{assigned_numbers, one_outcome};
pub use walking::walk;

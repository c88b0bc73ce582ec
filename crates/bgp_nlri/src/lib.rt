//! Fields of prefixes (RFC 4271, section 4.3; RFC 4760, section 5): octets come in, and whether
//! they are prefixes one after the other, and which, goes out.
//!
//! ```text
//! field  = prefix ..
//! prefix = length in bits (1 octet), the least number of octets that holds so many bits
//! ```
#![tactic(auto)]

mod family;
mod fields;
mod spelling;

pub use family::Family;
pub use fields::{Prefixes, check};

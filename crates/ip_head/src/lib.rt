//! The head of a packet: its first octets come in, and the address that it names as its source goes
//! out, or why it names none (RFC 791, section 3.1; RFC 8200, section 3).
//!
//! What comes behind the addresses, as options and extension headers, is left to others, and so are
//! the lengths and the checksum.
#![tactic(auto)]

mod fault;
mod source;

pub use fault::HeadFault;
pub use source::source_of;

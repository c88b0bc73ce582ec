//! The octets of whole messages, for the tests of the crates above: each constant is one message
//! that a peer may send, or one with a fault, named for what it says.
//!
//! Peers are AS 64501 with the identifier 192.0.2.1. UPDATEs have an ORIGIN, an AS_PATH of the one
//! four-octet number 64501 and the next hop 192.0.2.1, where nothing else is said.
#![tactic(auto)]

ghost use Rattle.std.specs.Prelude.{◌≡◌, ◌≤◌, drop, length};

mod faults;
mod opens;
mod updates;

pub use faults::{BROKEN_MARKER, HEADER_OF_18, NO_ORIGIN, OPEN_OF_VERSION_3, ROUTE_REFRESH};
pub use opens::{KEEPALIVE, NOTIFICATION, OPEN, OPEN_OF_64502, OPEN_TWO_OCTET};
pub use updates::{
    ANNOUNCE, ANNOUNCE_BOTH_FAMILIES, ANNOUNCE_IPV6, COMMUNITIES, END_OF_RIB, END_OF_RIB_IPV6,
    TWO_PREFIXES, WITHDRAW, WITHDRAW_AND_ANNOUNCE, WITHDRAW_BOTH_FAMILIES,
};

/// The octets of a header: marker, length and type (RFC 4271, section 4.1).
pub const HEADER_OCTETS: usize = 19;

/// The marker of a header: sixteen octets of all ones (RFC 4271, section 4.1).
pub const MARKER: [u8; 16] = [0xFF; 16];

/// What a message has behind its header.
pub fn body(message: &[u8]) -> &[u8]
    requires { 19 ≤ length message.now }
    ensures { result.now ≡ drop 19 message.now }
{
    &message[HEADER_OCTETS..]
}

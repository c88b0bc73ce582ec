//! The bodies of OPEN and NOTIFICATION messages: in comes what stands behind the header, out goes
//! what the peer says of itself, or the first fault of its OPEN (RFC 4271, sections 4.2, 4.5, 6.2).
//!
//! What a session makes of them is left to the crates above.
#![tactic(auto)]

mod capabilities;
mod faults;
mod fields;
mod laws;
mod notification;
mod opening;
mod parameters;

pub use faults::{
    BAD_BGP_IDENTIFIER, BAD_PEER_AS, OPEN_MESSAGE_ERROR, OpenFault, UNACCEPTABLE_HOLD_TIME,
    UNSPECIFIC, UNSUPPORTED_OPTIONAL_PARAMETER, UNSUPPORTED_VERSION_NUMBER,
};
pub use laws::{assigned_numbers, one_list_of_fields};
pub use notification::read_notification;
pub use opening::{OpenSeen, read_open};

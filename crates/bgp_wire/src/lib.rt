//! Messages out of a stream of octets: in come pieces of any size, out go whole messages, what is
//! left of one, or the first fault of a header (RFC 4271, sections 4.1 and 6.1).
//!
//! What stands in a message is left to the crates above.
#![tactic(auto)]

mod framer;
mod header;
mod kinds;
mod laws;

pub use framer::Framer;
pub use header::{
    BAD_MESSAGE_LENGTH, BAD_MESSAGE_TYPE, CONNECTION_NOT_SYNCHRONIZED, HEADER_OCTETS,
    MESSAGE_HEADER_ERROR,
};
pub use kinds::{FrameState, MsgKind};
pub use laws::{assigned_numbers, header_decides, one_framing};

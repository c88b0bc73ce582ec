//! The kinds of message, and what a framer says of the octets that it holds (RFC 4271, section 4.1).
ghost use Rattle.std.specs.Prelude.{◌≡◌};
ghost use Rattle.bgp_wire.specs.States.{kind_of};

use crate::header::{NOTIFICATION, OPEN, UPDATE};

/// The four kinds of message.
#[derive(Clone, Copy, Debug, PartialEq, Eq)]
pub enum MsgKind {
    /// Opens a session (RFC 4271, section 4.2).
    Open,
    /// Announces and withdraws routes (RFC 4271, section 4.3).
    Update,
    /// Closes a session with its cause (RFC 4271, section 4.5).
    Notification,
    /// Says that the peer is there (RFC 4271, section 4.4).
    Keepalive,
}

/// What the octets held so far are.
#[derive(Clone, Copy, Debug, PartialEq, Eq)]
pub enum FrameState {
    /// A part of a message: so many octets, from 0 to 4,095. More may come.
    Partial(u16),
    /// A whole message of this kind.
    Whole(MsgKind),
    /// A header whose first fault has this subcode, 1 to 3, of Message Header Error, code 1.
    Fault(u8),
}

/// The kind of a message of this type, 1 to 4.
pub fn kind_of_type(code: u8) -> MsgKind
    ensures { result ≡ kind_of code }
{
    if code == OPEN {
        return MsgKind::Open;
    }
    if code == UPDATE {
        return MsgKind::Update;
    }
    if code == NOTIFICATION {
        return MsgKind::Notification;
    }
    MsgKind::Keepalive
}

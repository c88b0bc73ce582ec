//! What a session is configured with, and why one was reset.

use crate::interfaces::IfaceId;

/// The configuration of a session.
#[derive(Clone, Copy, Debug, PartialEq, Eq)]
pub struct SessionConfig {
    /// The interface that the peer is reached through.
    pub iface: IfaceId,
    /// The AS number that the peer has to have.
    pub peer_as: u32,
    /// The hold time in seconds that this side offers, to 65,535. With 0 no seconds are too many
    /// (RFC 4271, section 4.2).
    pub hold: u16,
    /// The most distinct prefixes that the session may hold.
    pub max: u32,
}

/// The cause of a reset.
#[derive(Clone, Copy, Debug, PartialEq, Eq)]
pub enum ResetCause {
    /// This side found a fault: the error code and subcode of its NOTIFICATION (RFC 4271, section
    /// 4.5).
    Fault(u8, u8),
    /// The peer sent a NOTIFICATION with this error code and subcode.
    Notified(u8, u8),
    /// The transport went down, or came up anew.
    Closed,
}

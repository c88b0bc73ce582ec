//! The faults of an OPEN, by their subcodes of OPEN Message Error (RFC 4271, section 6.2).

/// The error code of a faulty OPEN (RFC 4271, section 4.5).
pub const OPEN_MESSAGE_ERROR: u8 = 2;

/// A fault that has no subcode of its own.
pub const UNSPECIFIC: u8 = 0;

/// The version is not 4.
pub const UNSUPPORTED_VERSION_NUMBER: u8 = 1;

/// The AS number is not the one that was configured.
pub const BAD_PEER_AS: u8 = 2;

/// The identifier is zero.
pub const BAD_BGP_IDENTIFIER: u8 = 3;

/// An optional parameter is of a type other than 2, Capabilities.
pub const UNSUPPORTED_OPTIONAL_PARAMETER: u8 = 4;

/// The hold time is one or two seconds.
pub const UNACCEPTABLE_HOLD_TIME: u8 = 6;

/// The first fault of an OPEN.
#[derive(Clone, Copy, Debug, PartialEq, Eq)]
pub struct OpenFault {
    /// The subcode, one of the constants of this crate.
    pub sub: u8,
}

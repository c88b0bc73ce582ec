//! The error code of an UPDATE, and the subcodes of faults in its body that are not those of one
//! attribute (RFC 4271, section 6.3).

/// The error code of a faulty UPDATE (RFC 4271, section 4.5).
pub const UPDATE_MESSAGE_ERROR: u8 = 3;

/// The withdrawn routes and the path attributes are longer than the body.
pub const MALFORMED_ATTRIBUTE_LIST: u8 = 1;

/// An attribute is missing that an announced route has to have.
pub const MISSING_WELL_KNOWN_ATTRIBUTE: u8 = 3;

/// A field of prefixes is malformed. RFC 4271 says it of the NLRI alone; that it holds of the
/// withdrawn routes too is our own choice.
pub const INVALID_NETWORK_FIELD: u8 = 10;

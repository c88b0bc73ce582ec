//! The subcodes of faults in attributes, under the code of an UPDATE's faults, 3 (RFC 4271, section
//! 6.3).

/// An attribute runs past the field, or its type came before in the field.
pub const MALFORMED_ATTRIBUTE_LIST: u8 = 1;

/// A type that this router does not know, without the flag that lets one pass over it.
pub const UNRECOGNIZED_WELL_KNOWN_ATTRIBUTE: u8 = 2;

/// The optional or the transitive flag is not that of the type.
pub const ATTRIBUTE_FLAGS_ERROR: u8 = 4;

/// The length is not that of the type.
pub const ATTRIBUTE_LENGTH_ERROR: u8 = 5;

/// ORIGIN is none of the three.
pub const INVALID_ORIGIN: u8 = 6;

/// NEXT_HOP is no address of a host.
pub const INVALID_NEXT_HOP: u8 = 8;

/// A multiprotocol attribute is malformed.
pub const OPTIONAL_ATTRIBUTE_ERROR: u8 = 9;

/// AS_PATH is malformed.
pub const MALFORMED_AS_PATH: u8 = 11;

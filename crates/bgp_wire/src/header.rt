//! The header that each message begins with, 19 octets, and its first fault (RFC 4271, sections 4.1
//! and 6.1).
//!
//! | Octets | Field |
//! |---|---|
//! | 0 to 15 | marker, all FF |
//! | 16 to 17 | length of the whole message, 19 to 4,096 |
//! | 18 | type, 1 to 4 |
ghost use Rattle.std.specs.Prelude.{◌≡◌, ◌≤◌, length};
ghost use Rattle.bgp_wire.specs.Header as spec;

use byteorder::{BigEndian, ByteOrder};

/// The error code of a faulty header (RFC 4271, sections 4.5 and 6.1).
pub const MESSAGE_HEADER_ERROR: u8 = 1;

/// The marker is not all ones (RFC 4271, section 6.1).
pub const CONNECTION_NOT_SYNCHRONIZED: u8 = 1;

/// The length is out of range, or not one that the type allows (RFC 4271, section 6.1).
pub const BAD_MESSAGE_LENGTH: u8 = 2;

/// The type is none of the four (RFC 4271, section 6.1).
pub const BAD_MESSAGE_TYPE: u8 = 3;

/// The type of an OPEN (RFC 4271, section 4.1).
pub const OPEN: u8 = 1;

/// The type of an UPDATE.
pub const UPDATE: u8 = 2;

/// The type of a NOTIFICATION.
pub const NOTIFICATION: u8 = 3;

/// The type of a KEEPALIVE.
pub const KEEPALIVE: u8 = 4;

/// The octets of a header.
pub const HEADER_OCTETS: usize = 19;

/// The octets of the marker.
const MARKER_OCTETS: usize = 16;

/// An octet of the marker.
const MARKER: u8 = 0xFF;

/// The least length of a message, that of a header alone.
const LEAST_LENGTH: u16 = 19;

/// The greatest length of a message (RFC 4271, section 4.1).
const GREATEST_LENGTH: u16 = 4096;

/// The least length of an OPEN with its header (RFC 4271, section 4.2).
const LEAST_OPEN: u16 = 29;

/// The least length of an UPDATE with its header (RFC 4271, section 4.3).
const LEAST_UPDATE: u16 = 23;

/// The least length of a NOTIFICATION with its header (RFC 4271, section 4.5).
const LEAST_NOTIFICATION: u16 = 21;

/// The length of a KEEPALIVE, a header alone (RFC 4271, section 4.4).
const KEEPALIVE_LENGTH: u16 = 19;

/// The subcode of the first fault of the header that the octets begin with.
///
/// Marker, range of the length, type, length by the type: in this order. None where there is none.
pub fn fault_of(octets: &[u8]) -> Option<u8>
    requires { 19 ≤ length octets.now }
    ensures { result ≡ spec.header_fault octets.now }
{
    if !has_marker(octets) {
        return Some(CONNECTION_NOT_SYNCHRONIZED);
    }
    let count = length_of(octets);
    if !is_length(count) {
        return Some(BAD_MESSAGE_LENGTH);
    }
    let code = type_of(octets);
    if !is_type(code) {
        return Some(BAD_MESSAGE_TYPE);
    }
    if !fits_type(code, count) {
        return Some(BAD_MESSAGE_LENGTH);
    }
    None
}

/// The length field, which counts the whole message.
pub fn length_of(octets: &[u8]) -> u16
    requires { 19 ≤ length octets.now }
    ensures { result ≡ spec.length_field octets.now }
{
    BigEndian::read_u16(&octets[MARKER_OCTETS..])
}

/// The type field.
pub fn type_of(octets: &[u8]) -> u8
    requires { 19 ≤ length octets.now }
    ensures { result ≡ spec.type_field octets.now }
{
    octets[HEADER_OCTETS - 1]
}

/// Whether all sixteen octets of the marker are FF.
fn has_marker(octets: &[u8]) -> bool
    requires { 19 ≤ length octets.now }
    ensures { result ≡ spec.has_marker octets.now }
{
    octets[..MARKER_OCTETS].iter().all(|octet| *octet == MARKER)
}

/// Whether a message may be so long.
fn is_length(count: u16) -> bool
    ensures { result ≡ spec.is_length count }
{
    LEAST_LENGTH <= count && count <= GREATEST_LENGTH
}

/// Whether this is one of the four types.
fn is_type(code: u8) -> bool
    ensures { result ≡ spec.is_type code }
{
    OPEN <= code && code <= KEEPALIVE
}

/// Whether a message of this type may be so long.
fn fits_type(code: u8, count: u16) -> bool
    ensures { result ≡ spec.fits_type code count }
{
    if code == OPEN {
        return LEAST_OPEN <= count;
    }
    if code == UPDATE {
        return LEAST_UPDATE <= count;
    }
    if code == NOTIFICATION {
        return LEAST_NOTIFICATION <= count;
    }
    count == KEEPALIVE_LENGTH
}

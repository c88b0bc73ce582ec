//! What the capabilities in a parameter tell of a peer: its AS number in four octets (RFC 6793,
//! section 3), and whether it lists IPv6 unicast (RFC 4760, section 8). Others are ignored.
//! Capability 65 holds the AS number (4 octets), capability 1 holds AFI (2), reserved (1), SAFI (1).
ghost use Rattle.std.specs.Prelude.{◌≡◌};
ghost use Rattle.bgp_open.specs.Fields.{field, fields_in};
ghost use Rattle.bgp_open.specs.Capabilities as spec;

use crate::fields::field_at;
use byteorder::{BigEndian, ByteOrder};

/// The code of the capability that lists an address family (RFC 4760, section 8).
const MULTIPROTOCOL_EXTENSIONS: u8 = 1;

/// The code of the capability with the AS number (RFC 6793, section 3).
const FOUR_OCTET_AS_NUMBER: u8 = 65;

/// The octets of the value of either.
const VALUE_OCTETS: usize = 4;

/// The address family of IPv6 (RFC 4760, section 8).
const AFI_IPV6: u16 = 2;

/// Unicast (RFC 4760, section 8).
const SAFI_UNICAST: u8 = 1;

/// What the capabilities of a peer told so far.
#[derive(Clone, Copy, Debug, PartialEq, Eq)]
pub struct Told {
    /// The AS number of the last capability 65.
    pub number: Option<u32>,
    /// Whether a capability lists IPv6 unicast.
    pub v6: bool,
}

/// Whether the value of a parameter is capabilities, none of them past its end, and those that are
/// read have four octets.
pub fn are_capabilities(value: &[u8]) -> bool
    ensures { result ≡ spec.are_capabilities value.now }
{
    let mut rest = value;
    while let Some((code, inner, after)) = field_at(rest) {
        if !has_length(code, inner) {
            return false;
        }
        rest = after;
    }
    rest.is_empty()
}

/// What was told before, and what the capabilities in the value of a parameter tell.
pub fn tell(value: &[u8], before: Told) -> Told
    ensures { result ≡ spec.told_after before (spec.told_by (fields_in value.now)) }
{
    let mut told = before;
    let mut rest = value;
    while let Some((code, inner, after)) = field_at(rest) {
        told = tell_one(code, inner, told);
        rest = after;
    }
    told
}

/// What was told before, and what one capability tells.
fn tell_one(code: u8, value: &[u8], before: Told) -> Told
    ensures { result ≡ spec.told_after before (spec.told_of (field code value.now)) }
{
    Told {
        number: number_in(code, value).or(before.number),
        v6: before.v6 || lists_v6(code, value),
    }
}

/// Whether a capability that is read has four octets.
fn has_length(code: u8, value: &[u8]) -> bool
    ensures { result ≡ spec.has_length (field code value.now) }
{
    if code == FOUR_OCTET_AS_NUMBER || code == MULTIPROTOCOL_EXTENSIONS {
        return value.len() == VALUE_OCTETS;
    }
    true
}

/// The AS number, if this capability tells one.
fn number_in(code: u8, value: &[u8]) -> Option<u32>
    ensures { result ≡ spec.number_in (field code value.now) }
{
    if code != FOUR_OCTET_AS_NUMBER {
        return None;
    }
    if value.len() != VALUE_OCTETS {
        return None;
    }
    Some(BigEndian::read_u32(value))
}

/// Whether this capability lists IPv6 unicast.
fn lists_v6(code: u8, value: &[u8]) -> bool
    ensures { result ≡ spec.lists_v6 (field code value.now) }
{
    if code != MULTIPROTOCOL_EXTENSIONS {
        return false;
    }
    if value.len() != VALUE_OCTETS {
        return false;
    }
    BigEndian::read_u16(value) == AFI_IPV6 && value[3] == SAFI_UNICAST
}

//! The body of an OPEN (RFC 4271, section 4.2): in come the octets behind the header, out goes what
//! they say, or the first fault (RFC 4271, section 6.2).
//!
//! | Octets | Field |
//! |---|---|
//! | 0 | version, 4 |
//! | 1 to 2 | My Autonomous System |
//! | 3 to 4 | hold time in seconds |
//! | 5 to 8 | identifier |
//! | 9 | octets of the optional parameters |
//! | 10 on | optional parameters |
ghost use Rattle.std.specs.Prelude.{◌≡◌, ◌≤◌, length, Some, None, IfOk, IfErr};
ghost use Rattle.bgp_open.specs.Openings as spec;

use crate::faults::{
    BAD_BGP_IDENTIFIER, BAD_PEER_AS, OpenFault, UNACCEPTABLE_HOLD_TIME, UNSUPPORTED_VERSION_NUMBER,
};
use crate::parameters::{parameters_fault, told_in};
use byteorder::{BigEndian, ByteOrder};

/// The version of the protocol (RFC 4271, section 4.2).
const VERSION: u8 = 4;

/// Where the optional parameters begin.
const PARAMETERS: usize = 10;

/// What an OPEN says of the peer.
#[derive(Clone, Copy, Debug, PartialEq, Eq)]
pub struct OpenSeen {
    /// The AS number, which is the expected one.
    pub asn: u32,
    /// The hold time in seconds: 0, or from 3 to 65,535.
    pub hold: u16,
    /// The identifier, not 0.
    pub id: u32,
    /// Whether there was a capability 65, so that AS numbers have four octets (RFC 6793).
    pub four_octet: bool,
    /// Whether IPv6 unicast was listed (RFC 4760, section 8).
    pub v6: bool,
}

/// What the body of an OPEN from a peer in the expected AS says, or its first fault.
///
/// The faults come in this order: version, hold time, identifier, parameters, AS number. The AS
/// number is that of the last capability 65, and My Autonomous System only where there is none.
pub fn read_open(body: &[u8], expected_as: u32) -> Result<OpenSeen, OpenFault>
    requires { 10 ≤ length body.now }
    ensures ok { IfOk result (λ seen.
        (spec.open_fault body.now expected_as ≡ None) × (seen ≡ spec.open_seen body.now)) }
    ensures peer { IfOk result (λ seen. seen.asn ≡ expected_as) }
    ensures fault { IfErr result (λ fault. spec.open_fault body.now expected_as ≡ Some fault.sub) }
{
    if let Some(sub) = fixed_fault(body) {
        return Err(OpenFault { sub });
    }
    if let Some(sub) = parameters_fault(body[9], &body[PARAMETERS..]) {
        return Err(OpenFault { sub });
    }
    let told = told_in(&body[PARAMETERS..]);
    let asn = told.number.unwrap_or(my_as_of(body) as u32);
    if asn != expected_as {
        return Err(OpenFault { sub: BAD_PEER_AS });
    }
    Ok(OpenSeen {
        asn,
        hold: hold_of(body),
        id: id_of(body),
        four_octet: told.number.is_some(),
        v6: told.v6,
    })
}

/// The first fault of version, hold time and identifier, in this order.
fn fixed_fault(body: &[u8]) -> Option<u8>
    requires { 10 ≤ length body.now }
    ensures { result ≡ spec.fixed_fault body.now }
{
    if body[0] != VERSION {
        return Some(UNSUPPORTED_VERSION_NUMBER);
    }
    if is_unacceptable(hold_of(body)) {
        return Some(UNACCEPTABLE_HOLD_TIME);
    }
    if id_of(body) == 0 {
        return Some(BAD_BGP_IDENTIFIER);
    }
    None
}

/// My Autonomous System, of two octets.
fn my_as_of(body: &[u8]) -> u16
    requires { 10 ≤ length body.now }
    ensures { result ≡ spec.my_as_field body.now }
{
    BigEndian::read_u16(&body[1..])
}

/// The hold time in seconds.
fn hold_of(body: &[u8]) -> u16
    requires { 10 ≤ length body.now }
    ensures { result ≡ spec.hold_field body.now }
{
    BigEndian::read_u16(&body[3..])
}

/// The identifier of the peer, of which only 0 is refused.
fn id_of(body: &[u8]) -> u32
    requires { 10 ≤ length body.now }
    ensures { result ≡ spec.id_field body.now }
{
    BigEndian::read_u32(&body[5..])
}

/// Whether this is a hold time of one or two seconds (RFC 4271, section 4.2).
fn is_unacceptable(hold: u16) -> bool
    ensures { result ≡ spec.is_unacceptable hold }
{
    hold == 1 || hold == 2
}

//! Values: the octets of an attribute's value come in, and whether they are as its type asks goes
//! out (RFC 4271, sections 4.3 and 6.3; RFC 4760, sections 3 and 4).
ghost use Rattle.std.specs.Prelude.{◌≡◌, ◌↔◌, ◌≤◌, ◌⊎◌, IsTrue, List, length, slice_index};
ghost use Rattle.byteorder.specs.Endian.{big_number};
ghost use Rattle.bgp_attr.specs.Faults.{HasLength};
ghost use Rattle.bgp_attr.specs.Table.{row, IsOrigin, IsAsPath, IsNextHop, IsMpReach, IsMpUnreach, IsReach};
ghost use Rattle.bgp_attr.specs.Table.{is_ipv6_unicast, is_heeded, reach_place};

use crate::types::AttributeType;
use as_path::{PathView, Width};
use bgp_nlri::{Family, check};
use byteorder::{BigEndian, ByteOrder};

/// The greatest ORIGIN, INCOMPLETE.
const INCOMPLETE: u8 = 2;

/// The first octet of the first address past those of hosts.
const MULTICAST: u8 = 224;

/// Address family 2 is IPv6.
const IPV6: u16 = 2;

/// Subsequent address family 1 is unicast.
const UNICAST: u8 = 1;

/// Whether the value is one that the type may have. Its length was judged before.
pub fn has_value(attribute_type: AttributeType, width: Width, v6: bool, value: &[u8]) -> bool
    requires short { length value.now ≤ 65535 }
    requires sized { HasLength value.now (row width v6 attribute_type) }
    ensures { IsTrue result ↔ (row width v6 attribute_type).Fits value.now }
{
    match attribute_type {
        AttributeType::Origin => is_origin(value),
        AttributeType::AsPath => is_as_path(value, width),
        AttributeType::NextHop => is_next_hop(value),
        AttributeType::MultiExitDisc => true,
        AttributeType::LocalPref => true,
        AttributeType::AtomicAggregate => true,
        AttributeType::Aggregator => true,
        AttributeType::MpReachNlri => is_mp_reach(value, v6),
        AttributeType::MpUnreachNlri => is_mp_unreach(value, v6),
        AttributeType::As4Path => true,
        AttributeType::As4Aggregator => true,
    }
}

/// Whether ORIGIN is IGP, EGP or INCOMPLETE.
fn is_origin(value: &[u8]) -> bool
    requires { length value.now ≡ 1 }
    ensures { IsTrue result ↔ IsOrigin value.now }
{
    value[0] <= INCOMPLETE
}

/// Whether AS_PATH is well formed.
fn is_as_path(value: &[u8], width: Width) -> bool
    requires { length value.now ≤ 65535 }
    ensures { IsTrue result ↔ IsAsPath width value.now }
{
    let Some(_) = PathView::read(value, width) else {
        return false;
    };
    true
}

/// Whether NEXT_HOP may be the address of a host.
fn is_next_hop(value: &[u8]) -> bool
    requires { length value.now ≡ 4 }
    ensures { IsTrue result ↔ IsNextHop value.now }
{
    if BigEndian::read_u32(value) == 0 {
        return false;
    }
    value[0] < MULTICAST
}

/// Whether MP_REACH_NLRI has a family, and is whole where it is heeded.
fn is_mp_reach(value: &[u8], v6: bool) -> bool
    ensures { IsTrue result ↔ IsMpReach v6 value.now }
{
    if value.len() < 3 {
        return false;
    }
    if !is_heeded(value, v6) {
        return true;
    }
    is_reach(value)
}

/// Whether MP_UNREACH_NLRI has a family, and then prefixes where it is heeded.
fn is_mp_unreach(value: &[u8], v6: bool) -> bool
    ensures { IsTrue result ↔ IsMpUnreach v6 value.now }
{
    if value.len() < 3 {
        return false;
    }
    if !is_heeded(value, v6) {
        return true;
    }
    check(&value[3..], Family::V6)
}

/// Whether next hop, reserved octet and prefixes are as RFC 4760, section 3, says.
fn is_reach(value: &[u8]) -> bool
    ensures { IsTrue result ↔ IsReach value.now }
{
    if value.len() < 4 {
        return false;
    }
    if !is_hop_length(value[3]) {
        return false;
    }
    let place = reach_place(value);
    if value.len() < place {
        return false;
    }
    check(&value[place..], Family::V6)
}

/// The next hop is one address of IPv6, or two.
fn is_hop_length(length: u8) -> bool
    ensures { IsTrue result ↔ ((length ≡ 16) ⊎ (length ≡ 32)) }
{
    length == 16 || length == 32
}

/// Where the prefixes of MP_REACH_NLRI begin.
pub fn reach_place(value: &[u8]) -> usize
    requires { 4 ≤ length value.now }
    ensures { result ≡ reach_place value.now }
{
    value[3] as usize + 5
}

/// Whether the attribute is about IPv6 unicast, and the peer listed that.
pub fn is_heeded(value: &[u8], v6: bool) -> bool
    requires { 3 ≤ length value.now }
    ensures { result ≡ is_heeded v6 value.now }
{
    if !v6 {
        return false;
    }
    if BigEndian::read_u16(value) != IPV6 {
        return false;
    }
    value[2] == UNICAST
}

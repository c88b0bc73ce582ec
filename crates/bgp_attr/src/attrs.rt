//! What a field of attributes tells: the values of single attributes come in, and what an UPDATE
//! needs of them goes out: whether ORIGIN and NEXT_HOP are there, the paths, the aggregators, and
//! the octets of the IPv6 prefixes.
ghost use Rattle.std.specs.Prelude.{◌≡◌, ◌≤◌, ◌+◌, length, option_copied};
ghost use Rattle.std.specs.Option.{ForSome};
ghost use Rattle.as_path.specs.Path.{octets_per};
ghost use Rattle.bgp_attr.specs.Slots.{AreFit};
ghost use Rattle.bgp_attr.specs.Table.{IsAsPath, IsMpReach, IsMpUnreach};
ghost use Rattle.bgp_attr.specs.Told.{TellsPath, TellsAs4, TellsValues, aggregator_in, as4_aggregator_in, reach_in};
ghost use Rattle.bgp_attr.specs.Told.{unreach_in};

use crate::slots::Slots;
use crate::values::{is_heeded, reach_place};
use as_path::{Aggregators, PathView, Width};
use byteorder::{BigEndian, ByteOrder};

/// What the attributes of an UPDATE tell the router. It borrows their octets.
#[derive(Debug, Drop)]
pub struct Attrs<'a> {
    /// Whether ORIGIN is there.
    pub has_origin: bool,
    /// AS_PATH.
    pub path: Option<PathView<'a>>,
    /// Whether NEXT_HOP is there.
    pub has_next_hop: bool,
    /// AS4_PATH from a peer of two-octet AS numbers, unless it is malformed.
    pub as4: Option<PathView<'a>>,
    /// The AS numbers of AGGREGATOR and, from a peer of two-octet AS numbers, of AS4_AGGREGATOR.
    pub aggregators: Aggregators,
    /// The IPv6 prefixes of MP_REACH_NLRI, empty where there are none.
    pub reach: &'a [u8],
    /// The IPv6 prefixes of MP_UNREACH_NLRI, empty where there are none.
    pub unreach: &'a [u8],
}

/// The first fault of a field of attributes.
#[derive(Clone, Copy, Debug, PartialEq, Eq)]
pub struct AttrFault {
    /// The subcode, under the code 3 (RFC 4271, section 6.3).
    pub sub: u8,
}

/// What values tell that are as the table asks.
pub fn attrs_from<'a>(slots: Slots<'a>, width: Width, v6: bool) -> Attrs<'a>
    requires { AreFit width v6 slots }
    ensures { TellsValues width v6 slots.entry result }
{
    Attrs {
        has_origin: slots.origin.is_some(),
        path: path_of(slots.path, width),
        has_next_hop: slots.next_hop.is_some(),
        as4: as4_of(slots.as4, width),
        aggregators: Aggregators {
            own: aggregator_of(slots.aggregator, width),
            four: as4_aggregator_of(slots.as4_aggregator, width),
        },
        reach: reach_of(slots.reach, v6),
        unreach: unreach_of(slots.unreach, v6),
    }
}

/// The path of AS_PATH.
fn path_of(value: Option<&[u8]>, width: Width) -> Option<PathView<'_>>
    requires short { ForSome value (λ v. length v.now ≤ 65535) }
    requires path { ForSome value (λ v. IsAsPath width v.now) }
    ensures { TellsPath width (option_copied value.entry) result }
{
    let Some(value) = value else {
        return None;
    };
    let Some(path) = PathView::read(value, width) else {
        unreachable!();
    };
    Some(path)
}

/// The path of AS4_PATH, unless that is discarded.
fn as4_of(value: Option<&[u8]>, width: Width) -> Option<PathView<'_>>
    requires { ForSome value (λ v. length v.now ≤ 65535) }
    ensures { TellsAs4 width (option_copied value.entry) result }
{
    if width == Width::Four {
        return None;
    }
    let Some(value) = value else {
        return None;
    };
    if value.is_empty() {
        return None;
    }
    PathView::read(value, Width::Four)
}

/// The AS number of AGGREGATOR.
fn aggregator_of(value: Option<&[u8]>, width: Width) -> Option<u32>
    requires { ForSome value (λ v. length v.now ≡ octets_per width + 4) }
    ensures { result ≡ aggregator_in width (option_copied value.entry) }
{
    let Some(value) = value else {
        return None;
    };
    match width {
        Width::Two => Some(BigEndian::read_u16(value) as u32),
        Width::Four => Some(BigEndian::read_u32(value)),
    }
}

/// The AS number of AS4_AGGREGATOR, unless that is discarded.
fn as4_aggregator_of(value: Option<&[u8]>, width: Width) -> Option<u32>
    ensures { result ≡ as4_aggregator_in width (option_copied value.entry) }
{
    if width == Width::Four {
        return None;
    }
    let Some(value) = value else {
        return None;
    };
    if value.len() != 8 {
        return None;
    }
    Some(BigEndian::read_u32(value))
}

/// The prefixes of MP_REACH_NLRI, unless it is passed over.
fn reach_of(value: Option<&[u8]>, v6: bool) -> &[u8]
    requires { ForSome value (λ v. IsMpReach v6 v.now) }
    ensures { result.now ≡ reach_in v6 (option_copied value.entry) }
{
    let Some(value) = value else {
        return &[];
    };
    if !is_heeded(value, v6) {
        return &[];
    }
    &value[reach_place(value)..]
}

/// The prefixes of MP_UNREACH_NLRI, unless it is passed over.
fn unreach_of(value: Option<&[u8]>, v6: bool) -> &[u8]
    requires { ForSome value (λ v. IsMpUnreach v6 v.now) }
    ensures { result.now ≡ unreach_in v6 (option_copied value.entry) }
{
    let Some(value) = value else {
        return &[];
    };
    if !is_heeded(value, v6) {
        return &[];
    }
    &value[3..]
}

//! The rows that are measured: each prefix is an IPv4 route of 24 bits, and all interfaces have it.
ghost use Rattle.std.specs.Prelude.{◌≡◌, ◌≤◌, IfSome};

use crate::sizes::Sizes;
use rpf_plain::Row;
use urpf_base::{Addr, IfaceId, Prefix};

/// How many prefixes of 24 bits there are.
const BLOCKS: u32 = 0x100_0000;

/// An odd number, which mixes the places of prefixes that come in no order.
const MIXER: u32 = 0x9e_3779;

/// Row `k`. None where its interface or its prefix cannot be.
pub fn row(sizes: &Sizes, k: u32) -> Option<Row>
    ensures { IfSome result (λ row. row.prefix.len ≡ 24) }
{
    let ifaces = u32::from(sizes.ifaces.max(1));
    let place = k / ifaces;
    Some(Row {
        prefix: prefix(sizes, place)?,
        iface: IfaceId::new((k % ifaces) as u16)?,
        origin: Some(origin(sizes, place)),
    })
}

/// The prefix at this place.
pub fn prefix(sizes: &Sizes, place: u32) -> Option<Prefix>
    ensures { IfSome result (λ prefix. prefix.len ≡ 24) }
{
    let block = if sizes.ascending {
        place % BLOCKS
    } else {
        place.wrapping_mul(MIXER) % BLOCKS
    };
    Prefix::new(Addr::V4(block * 256), 24)
}

/// The origin of the prefix at this place.
pub fn origin(sizes: &Sizes, place: u32) -> u32
    ensures { 1 ≤ result }
{
    place.wrapping_mul(MIXER) % sizes.origins.max(1) + 1
}

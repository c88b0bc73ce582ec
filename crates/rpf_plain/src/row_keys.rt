//! The rows of one family in few octets: 12 for IPv4, 24 for IPv6. They are ordered as rows are.
ghost use Rattle.std.specs.Prelude.{◌≡◌, ◌*◌, ◌+◌, ◌^◌, ◌<◌, ◌≤◌, if◌then◌else◌};
ghost use Rattle.urpf_base.specs.Address.{cleared};

use std::mem::size_of;

/// A row of IPv4: the number of its address, how many bits count, to 32, its interface, whether its
/// origin is known, and the origin, or 0 where it is not.
#[derive(Clone, Copy, Debug, PartialEq, Eq, PartialOrd, Ord)]
pub struct ShortRow {
    pub number: u32,
    pub len: u8,
    pub iface: u8,
    pub known: bool,
    pub origin: u32,
    ghost small: { number < 2 ^ 32 },
    ghost within: { len ≤ 32 },
    ghost zeros: { cleared 32 len number ≡ number },
    ghost iface_below: { iface < 64 },
    ghost spare: { origin ≡ (if known then origin else 0) },
}

/// A row of IPv6, as one of IPv4, but for its address: the upper and the lower 64 bits of it, of
/// which to 128 count.
#[derive(Clone, Copy, Debug, PartialEq, Eq, PartialOrd, Ord)]
pub struct LongRow {
    pub high: u64,
    pub low: u64,
    pub len: u8,
    pub iface: u8,
    pub known: bool,
    pub origin: u32,
    ghost small_high: { high < 2 ^ 64 },
    ghost small_low: { low < 2 ^ 64 },
    ghost within: { len ≤ 128 },
    ghost zeros: { cleared 128 len (high * 2 ^ 64 + low) ≡ high * 2 ^ 64 + low },
    ghost iface_below: { iface < 64 },
    ghost spare: { origin ≡ (if known then origin else 0) },
}

// An engine keeps one for each row, so they are to stay this small.
const _: () = prove!(size_of::<ShortRow>() == 12);

const _: () = prove!(size_of::<LongRow>() == 24);

/// A row by its family.
pub enum RowKey {
    Short(ShortRow),
    Long(LongRow),
}

//! A pair of a prefix and an AS number in few octets: 12 for IPv4, 24 for IPv6, and a mark of
//! which.
ghost use Rattle.std.specs.Prelude.{◌≡◌, ◌*◌, ◌+◌, ◌^◌, ◌<◌, ◌≤◌};
ghost use Rattle.urpf_base.specs.Address.{cleared};

/// A prefix of IPv4, as the number of its address and how many bits count, to 32, and an AS number.
#[derive(Clone, Copy, Debug, PartialEq, Eq, PartialOrd, Ord)]
pub struct ShortPair {
    pub number: u32,
    pub len: u8,
    pub origin: u32,
    ghost small: { number < 2 ^ 32 },
    ghost within: { len ≤ 32 },
    ghost zeros: { cleared 32 len number ≡ number },
}

/// A prefix of IPv6, as the upper and the lower 64 bits of its address and how many bits count, to
/// 128, and an AS number.
#[derive(Clone, Copy, Debug, PartialEq, Eq, PartialOrd, Ord)]
pub struct LongPair {
    pub high: u64,
    pub low: u64,
    pub len: u8,
    pub origin: u32,
    ghost small_high: { high < 2 ^ 64 },
    ghost small_low: { low < 2 ^ 64 },
    ghost within: { len ≤ 128 },
    ghost zeros: { cleared 128 len (high * 2 ^ 64 + low) ≡ high * 2 ^ 64 + low },
}

/// A pair by its family.
#[derive(Clone, Copy, Debug, PartialEq, Eq, PartialOrd, Ord)]
pub enum PackedPair {
    Short(ShortPair),
    Long(LongPair),
}

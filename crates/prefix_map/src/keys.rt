//! The prefixes of one family as keys of few octets: 8 for IPv4, 24 for IPv6.
ghost use Rattle.std.specs.Prelude.{◌≡◌, ◌*◌, ◌+◌, ◌^◌, ◌<◌, ◌≤◌};
ghost use Rattle.urpf_base.specs.Address.{cleared};

/// A prefix of IPv4: the number of its address, and how many bits count, to 32.
#[derive(Clone, Copy, Debug, PartialEq, Eq, PartialOrd, Ord)]
pub struct ShortKey {
    pub number: u32,
    pub len: u8,
    ghost small: { number < 2 ^ 32 },
    ghost within: { len ≤ 32 },
    ghost zeros: { cleared 32 len number ≡ number },
}

/// A prefix of IPv6: the upper and the lower 64 bits of its address, and how many bits count, to
/// 128.
#[derive(Clone, Copy, Debug, PartialEq, Eq, PartialOrd, Ord)]
pub struct LongKey {
    pub high: u64,
    pub low: u64,
    pub len: u8,
    ghost small_high: { high < 2 ^ 64 },
    ghost small_low: { low < 2 ^ 64 },
    ghost within: { len ≤ 128 },
    ghost zeros: { cleared 128 len (high * 2 ^ 64 + low) ≡ high * 2 ^ 64 + low },
}

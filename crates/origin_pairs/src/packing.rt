//! From a pair to its packed form, and back.
ghost use Rattle.std.specs.Prelude.{◌≡◌};
ghost use Rattle.origin_pairs.specs.Packed.{long_pair, short_pair, unpacked};

use crate::packed_pair::{LongPair, PackedPair, ShortPair};
use urpf_base::{Addr, Prefix};

/// The weight of the upper 64 bits of an address of IPv6.
const HALF: u128 = 0x1_0000_0000_0000_0000;

/// The pair, packed.
pub fn packed(prefix: &Prefix, origin: u32) -> PackedPair
    ensures { unpacked result ≡ (prefix.now, origin) }
{
    let len = prefix.len();
    match prefix.addr() {
        Addr::V4(number) => PackedPair::Short(ShortPair {
            number,
            len,
            origin,
        }),
        Addr::V6(number) => {
            let high = (number / HALF) as u64;
            let low = (number % HALF) as u64;
            PackedPair::Long(LongPair {
                high,
                low,
                len,
                origin,
            })
        }
    }
}

impl PackedPair {
    /// The prefix and the AS number.
    pub fn unpacked(&self) -> (Prefix, u32)
        ensures { result ≡ unpacked self.now }
    {
        match *self {
            PackedPair::Short(pair) => (pair.prefix(), pair.origin),
            PackedPair::Long(pair) => (pair.prefix(), pair.origin),
        }
    }
}

impl ShortPair {
    /// The prefix of this pair.
    fn prefix(&self) -> Prefix
        ensures { (result, self.now.origin) ≡ short_pair self.now }
    {
        Prefix::new(Addr::V4(self.number), self.len).unwrap()
    }
}

impl LongPair {
    /// The prefix of this pair.
    fn prefix(&self) -> Prefix
        ensures { (result, self.now.origin) ≡ long_pair self.now }
    {
        let number = u128::from(self.high) * HALF + u128::from(self.low);
        Prefix::new(Addr::V6(number), self.len).unwrap()
    }
}

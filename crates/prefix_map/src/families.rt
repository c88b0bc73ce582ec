//! From a prefix to the key of its family, and back.
ghost use Rattle.std.specs.Prelude.{◌≡◌};
ghost use Rattle.prefix_map.specs.Keys.{block_of_key, long_block, short_block};

use crate::keys::{LongKey, ShortKey};
use urpf_base::{Addr, Prefix};

/// The weight of the upper 64 bits of an address of IPv6.
const HALF: u128 = 0x1_0000_0000_0000_0000;

/// A prefix by its family.
pub enum Key {
    Short(ShortKey),
    Long(LongKey),
}

/// The prefix as the key of its family.
pub fn key_of(prefix: &Prefix) -> Key
    ensures { block_of_key result ≡ prefix.now }
{
    let len = prefix.len();
    match prefix.addr() {
        Addr::V4(number) => Key::Short(ShortKey { number, len }),
        Addr::V6(number) => {
            let high = (number / HALF) as u64;
            let low = (number % HALF) as u64;
            Key::Long(LongKey { high, low, len })
        }
    }
}

impl ShortKey {
    /// The key that no key comes after.
    pub fn last() -> ShortKey
        ensures number { result.number ≡ 4294967295 }
        ensures len { result.len ≡ 32 }
    {
        ShortKey {
            number: u32::MAX,
            len: 32,
        }
    }

    /// The prefix of this key.
    pub fn prefix(&self) -> Prefix
        ensures { result ≡ short_block self.now }
    {
        Prefix::new(Addr::V4(self.number), self.len).unwrap()
    }
}

impl LongKey {
    /// The prefix of this key.
    pub fn prefix(&self) -> Prefix
        ensures { result ≡ long_block self.now }
    {
        let number = u128::from(self.high) * HALF + u128::from(self.low);
        Prefix::new(Addr::V6(number), self.len).unwrap()
    }
}

//! Numbers in text: octets come in, and the number that they write goes out.
//!
//! The form of RFC 6943, section 3.1.1: digits alone, and no zero before another digit.
ghost use Rattle.std.specs.Prelude.{◌≡◌, ℕ, ◌≤◌, ◌↔◌, IsTrue, Some, decimal};
ghost use Rattle.std.specs.Option.{IfSome, SomeIff};
ghost use Rattle.std.specs.Str.Parse.{digits_value};
ghost use Rattle.ip_text.specs.Numbers.{StartsWell, WritesUpTo};

/// The number that the whole text writes in decimal without leading zeros, from 0 to `most`. None
/// where the text writes no number so, or a greater one.
pub fn read_number(text: &[u8], most: u32) -> Option<u32>
    ensures found { IfSome result (λ n. (n ≤ most) × (text.now ≡ decimal n)) }
    ensures only { (n : ℕ) → n ≤ most → text.now ≡ decimal n → result ≡ Some n }
{
    if !starts_well(text) {
        return None;
    }
    value_of(text, 10, most)
}

/// Whether the text has an octet and no zero before another octet.
fn starts_well(text: &[u8]) -> bool
    ensures { IsTrue result ↔ StartsWell text.now }
{
    match text {
        [] => false,
        [_] => true,
        [first, ..] => *first != b'0',
    }
}

/// The number that the digits of this radix write, from 0 on if there is none. None where an octet
/// is no digit or the number is more than `most`.
pub(crate) fn value_of(text: &[u8], radix: u32, most: u32) -> Option<u32>
    requires low { 2 ≤ radix }
    requires high { radix ≤ 36 }
    ensures { SomeIff result (WritesUpTo radix most text.now) (digits_value radix text.now) }
{
    let mut value: u32 = 0;
    for octet in text {
        let Some(digit) = (*octet as char).to_digit(radix) else {
            return None;
        };
        let next = value as u64 * radix as u64 + digit as u64;
        if next > most as u64 {
            return None;
        }
        value = next as u32;
    }
    Some(value)
}

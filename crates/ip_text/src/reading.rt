//! Reading an address: the octets of its text come in, and the address goes out.
//!
//! IPv4 is four decimal numbers from 0 to 255 without leading zeros, parted by dots. IPv6 is eight
//! groups of one to four hexadecimal digits, parted by colons, where one `::` may stand for one or
//! more groups of zeros (RFC 4291, section 2.2). Nothing stands before or after.
ghost use Rattle.std.specs.Prelude.{◌≡◌, ℕ, List, ◌∷◌, ◌++◌, ◌<◌, ◌^◌, Some, decimal};
ghost use Rattle.std.specs.Option.{IfSome, IsSomeAnd};
ghost use Rattle.urpf_base.specs.declared.address.Addr.{Addr};
ghost use Rattle.ip_text.specs.Texts.{SpellsAddr, IsAddr, addr_text, dotted};

use crate::cutting::cut;
use crate::groups::read_v6;
use crate::numbers::read_number;
use urpf_base::Addr;

/// The address that the whole text spells. None where it spells none.
pub fn read_addr(text: &[u8]) -> Option<Addr>
    ensures found { IfSome result (SpellsAddr text.now) }
    ensures only { (a : Addr) → SpellsAddr text.now a → result ≡ Some a }
    // What is printed of an address is read as that address.
    ensures printed { (a : Addr) → IsAddr a → text.now ≡ addr_text a → result ≡ Some a }
{
    if let Some(number) = read_v4(text) {
        return Some(Addr::V4(number));
    }
    let Some(number) = read_v6(text) else {
        return None;
    };
    Some(Addr::V6(number))
}

fn read_v4(text: &[u8]) -> Option<u32>
    ensures found { IfSome result (λ n. text.now ≡ dotted n) }
    ensures only { (n : ℕ) → n < 2 ^ 32 → text.now ≡ dotted n → result ≡ Some n }
{
    let Some((first, text)) = part(text) else {
        return None;
    };
    let Some((second, text)) = part(text) else {
        return None;
    };
    let Some((third, text)) = part(text) else {
        return None;
    };
    let Some(fourth) = octet(text) else {
        return None;
    };
    Some(u32::from_be_bytes([first, second, third, fourth]))
}

/// A number from 0 to 255 and a dot, and then the rest.
fn part(text: &[u8]) -> Option<(u8, &[u8])>
    ensures found { IfSome result (λ x. text.now ≡ decimal x.0 ++ (46 ∷ x.1.now)) }
    ensures only { (n : ℕ) (rest : List ℕ) → n < 256 → text.now ≡ decimal n ++ (46 ∷ rest)
        → IsSomeAnd result (λ x. (x.0 ≡ n) × (x.1.now ≡ rest)) }
{
    let Some((front, rest)) = cut(text, b'.') else {
        return None;
    };
    let Some(number) = octet(front) else {
        return None;
    };
    Some((number, rest))
}

/// A number from 0 to 255.
fn octet(text: &[u8]) -> Option<u8>
    ensures found { IfSome result (λ n. text.now ≡ decimal n) }
    ensures only { (n : ℕ) → n < 256 → text.now ≡ decimal n → result ≡ Some n }
{
    let Some(number) = read_number(text, 255) else {
        return None;
    };
    Some(number as u8)
}

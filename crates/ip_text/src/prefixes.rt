//! Reading a prefix and an AS number: the octets of a text come in, and what they spell goes out.
//!
//! ```text
//! prefix    = address "/" length in decimal
//! AS number = ["AS"] number in decimal
//! ```
ghost use Rattle.std.specs.Prelude.{◌≡◌, ◌↔◌, ℕ, IsTrue, Some};
ghost use Rattle.std.specs.Option.{IfSome};
ghost use Rattle.urpf_base.specs.Address.{Block};
ghost use Rattle.ip_text.specs.Prefixes.{AreAs, SpellsAsn, SpellsPrefix};

use crate::cutting::cut;
use crate::numbers::read_number;
use crate::reading::read_addr;
use urpf_base::Prefix;

/// The prefix that the whole text spells: an address, a slash and a length in decimal without leading
/// zeros, at most 32 for IPv4 and 128 for IPv6 (RFC 4632, section 3.1; RFC 4291, section 2.3). Bits
/// past the length are cleared. None where the text spells none.
pub fn read_prefix(text: &[u8]) -> Option<Prefix>
    ensures found { IfSome result (SpellsPrefix text.now) }
    ensures only { (prefix : Block) → SpellsPrefix text.now prefix → result ≡ Some prefix }
{
    let Some((front, digits)) = cut(text, b'/') else {
        return None;
    };
    let Some(addr) = read_addr(front) else {
        return None;
    };
    let Some(len) = read_number(digits, 128) else {
        return None;
    };
    Prefix::new(addr, len as u8)
}

/// The AS number that the whole text spells: a number from 0 to 4,294,967,295 in decimal without
/// leading zeros (RFC 5396, section 2, asplain), with or without `AS` in either case before it. None
/// where the text spells none, as in the dotted form.
pub fn read_asn(text: &[u8]) -> Option<u32>
    ensures found { IfSome result (SpellsAsn text.now) }
    ensures only { (number : ℕ) → SpellsAsn text.now number → result ≡ Some number }
{
    match text {
        [a, s, digits @ ..] if are_as(*a, *s) => read_number(digits, u32::MAX),
        _ => read_number(text, u32::MAX),
    }
}

/// Whether these are the letters A and S, each in either case.
fn are_as(a: u8, s: u8) -> bool
    ensures { IsTrue result ↔ AreAs a s }
{
    (a == b'A' || a == b'a') && (s == b'S' || s == b's')
}

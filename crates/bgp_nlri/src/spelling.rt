//! One prefix: a field comes in, and its first prefix and what follows go out. A prefix is its
//! length in bits, of one octet, and then the least number of octets that holds so many bits
//! (RFC 4271, section 4.3).
ghost use Rattle.std.specs.Prelude.{◌≡◌, ◌≤◌, length};
ghost use Rattle.std.specs.Option.{option_map};
ghost use Rattle.urpf_base.specs.Address.{block_of};
ghost use Rattle.bgp_nlri.specs.Nlri.{octets_for, bits_of, addr_from, filled_up};
ghost use Rattle.bgp_nlri.specs.Front.{prefix_front};

use crate::family::Family;
use urpf_base::{Addr, Prefix};

/// The first prefix of the field, and the octets after it. None where the field is empty, the
/// length is past the family's bound, or the octets end before the prefix does.
pub fn first(field: &[u8], family: Family) -> Option<(Prefix, &[u8])>
    ensures { option_map (λ x. (x.0, x.1.now)) result ≡ prefix_front family field.now }
{
    let Some((len, text)) = field.split_first() else {
        return None;
    };
    if *len > bound(family) {
        return None;
    }
    let count = octet_count(*len);
    if text.len() < count {
        return None;
    }
    let (octets, rest) = text.split_at(count);
    Some((prefix_of(octets, *len, family), rest))
}

/// How many bits the addresses of the family have.
fn bound(family: Family) -> u8
    ensures { result ≡ bits_of family }
{
    match family {
        Family::V4 => 32,
        Family::V6 => 128,
    }
}

/// How many octets hold so many bits.
fn octet_count(bits: u8) -> usize
    ensures { result ≡ octets_for bits }
{
    (bits as usize).div_ceil(8)
}

/// The prefix whose first octets these are. The bits past its length are cleared.
fn prefix_of(octets: &[u8], len: u8, family: Family) -> Prefix
    requires within { len ≤ bits_of family }
    requires whole { length octets.now ≡ octets_for len }
    ensures { result ≡ block_of len (addr_from family (filled_up family octets.now)) }
{
    let addr = match family {
        Family::V4 => Addr::V4(u32::from_be_bytes(filled_up_4(octets))),
        Family::V6 => Addr::V6(u128::from_be_bytes(filled_up_16(octets))),
    };
    match Prefix::new(addr, len) {
        Some(prefix) => prefix,
        None => unreachable!(),
    }
}

/// The octets, and zeros after them up to the four of an address.
fn filled_up_4(octets: &[u8]) -> [u8; 4]
    requires { length octets.now ≤ 4 }
    ensures { result ≡ filled_up Family.V4 octets.now }
{
    let mut whole = [0; 4];
    whole[..octets.len()].copy_from_slice(octets);
    whole
}

/// The octets, and zeros after them up to the sixteen of an address.
fn filled_up_16(octets: &[u8]) -> [u8; 16]
    requires { length octets.now ≤ 16 }
    ensures { result ≡ filled_up Family.V6 octets.now }
{
    let mut whole = [0; 16];
    whole[..octets.len()].copy_from_slice(octets);
    whole
}

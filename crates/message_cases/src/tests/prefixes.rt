//! Prefixes, read plainly (RFC 4271, section 4.3; RFC 4760, section 5): a length in bits of one
//! octet, and the least number of octets that holds so many bits.
use super::octets::{number, parted};
use std::alloc::{AllocError, Global};
use urpf_base::{Addr, Prefix};

/// A prefix: of which family, how many bits, and the number of its address, in which the bits past
/// the length are zeros.
#[derive(Clone, Copy, Debug, PartialEq, Eq)]
pub struct PlainPrefix {
    pub is_v6: bool,
    pub len: usize,
    pub bits: u128,
}

/// How a prefix of the crates looks plainly.
pub fn plain(prefix: &Prefix) -> PlainPrefix {
    let len = prefix.len() as usize;
    match prefix.addr() {
        Addr::V4(number) => PlainPrefix {
            is_v6: false,
            len,
            bits: number as u128,
        },
        Addr::V6(number) => PlainPrefix {
            is_v6: true,
            len,
            bits: number,
        },
    }
}

/// The prefixes that a field is. None where it is something else.
pub fn prefixes_of(
    alloc: Global,
    field: &[u8],
    is_v6: bool,
) -> Result<Option<Vec<PlainPrefix>>, AllocError> {
    let mut prefixes = Vec::new(alloc);
    let mut rest = field;
    for _ in 0..field.len() {
        if rest.is_empty() {
            break;
        }
        let Some((prefix, after)) = first_prefix(rest, is_v6) else {
            return Ok(None);
        };
        prefixes.push(prefix)?;
        rest = after;
    }
    Ok(Some(prefixes))
}

fn first_prefix(text: &[u8], is_v6: bool) -> Option<(PlainPrefix, &[u8])> {
    let Some((head, after)) = parted(text, 1) else {
        return None;
    };
    let len = number(head) as usize;
    let width = if is_v6 { 128 } else { 32 };
    if len > width {
        return None;
    }
    let Some((octets, rest)) = parted(after, least_octets(len)) else {
        return None;
    };
    let bits = bits_in(octets, len, width);
    Some((PlainPrefix { is_v6, len, bits }, rest))
}

/// The least number of octets that holds so many bits, of 128 bits at most.
fn least_octets(bits: usize) -> usize {
    for count in 0..16 {
        if count * 8 >= bits {
            return count;
        }
    }
    16
}

/// The number of so many bits that begins with these, bit by bit, and has zeros after them.
fn bits_in(octets: &[u8], len: usize, width: usize) -> u128 {
    let mut bits: u128 = 0;
    for place in 0..width {
        let is_set = place < len && bit_at(octets, place);
        bits = bits
            .wrapping_mul(2)
            .wrapping_add(if is_set { 1 } else { 0 });
    }
    bits
}

fn bit_at(octets: &[u8], place: usize) -> bool {
    let octet = octets.get(place / 8).copied().unwrap_or(0);
    octet & 128 >> (place % 8) != 0
}

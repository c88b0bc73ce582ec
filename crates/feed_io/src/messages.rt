//! The messages of the generator: the number of a block comes in, and the octets of its UPDATE go
//! out. AS 64499 sends them, and numbers have their highest octet first.
//!
//! | Octets | Of an UPDATE (RFC 4271, sections 4.1 and 4.3; RFC 6793, section 3) |
//! |---|---|
//! | 0 to 15 | the marker, each FF |
//! | 16 to 17 | the length of the whole, 51 to 79 |
//! | 18 | the type, 2 |
//! | 19 to 22 | no withdrawn routes, 24 octets of attributes |
//! | 23 to 26 | ORIGIN: IGP |
//! | 27 to 39 | AS_PATH: a sequence of 64499 and the origin AS |
//! | 40 to 46 | NEXT_HOP: 192.0.2.1 |
//! | from 47 | the prefixes, 1 to 8: the length 24, and three octets |
ghost use Rattle.std.specs.Prelude.{◌≡◌, ◌+◌, ◌*◌, ◌<◌, ◌≤◌, [], ◌∷◌, ◌++◌, length, replicate};
ghost use Rattle.std.specs.List.{flat_map, range_with_len};
ghost use Rattle.byteorder.specs.Endian.{big_bytes};
ghost use Rattle.feed_io.specs.Generated as spec;

use crate::few_octets::FewOctets;

/// The type of an OPEN (RFC 4271, section 4.1).
pub const OPEN: u8 = 1;

/// The type of an UPDATE (RFC 4271, section 4.1).
pub const UPDATE: u8 = 2;

/// The type of a KEEPALIVE (RFC 4271, section 4.1).
pub const KEEPALIVE: u8 = 4;

/// The type of the parameter that lists capabilities (RFC 5492, section 4).
pub const CAPABILITIES: u8 = 2;

/// The code of the capability of four-octet AS numbers (RFC 6793, section 3).
pub const FOUR_OCTET_AS: u8 = 65;

/// The type of ORIGIN (RFC 4271, section 4.3).
pub const ORIGIN: u8 = 1;

/// The type of AS_PATH (RFC 4271, section 4.3).
pub const AS_PATH: u8 = 2;

/// The type of NEXT_HOP (RFC 4271, section 4.3).
pub const NEXT_HOP: u8 = 3;

/// The type of a segment of a path that is an ordered sequence (RFC 4271, section 4.3).
pub const AS_SEQUENCE: u8 = 2;

/// The AS that sends the messages.
pub const SPEAKER: u32 = 64_499;

/// The most prefixes of an UPDATE.
const BLOCK_PREFIXES: u32 = 8;

/// How many UPDATEs announce so many prefixes.
pub fn block_count(count: u32) -> u32
    requires { count ≤ 4000000 }
    ensures { result ≡ spec.block_count count }
{
    count.div_ceil(BLOCK_PREFIXES)
}

/// The OPEN: version 4, AS 64499, no hold timer, the identifier 192.0.2.9, and the capability of
/// four-octet AS numbers.
pub fn opening() -> FewOctets
    ensures { result ≡ spec.opening }
{
    let mut message = header(37, OPEN);
    message.append(&[4, 0xFB, 0xF3, 0, 0, 192, 0, 2, 9]);
    message.append(&[8, CAPABILITIES, 6, FOUR_OCTET_AS, 4, 0, 0, 0xFB, 0xF3]);
    message
}

/// The KEEPALIVE.
pub fn keepalive() -> FewOctets
    ensures { result ≡ spec.keepalive }
{
    header(19, KEEPALIVE)
}

/// The UPDATE of this block, counted from 0, which has a prefix.
pub fn block_update(seed: u32, count: u32, block: u32) -> FewOctets
    requires within { count ≤ 4000000 }
    requires some { 8 * block < count }
    ensures { result ≡ spec.block_update seed count block }
{
    let first = BLOCK_PREFIXES * block;
    let prefixes = (count - first).min(BLOCK_PREFIXES);
    let mut message = header(47 + 4 * prefixes as u16, UPDATE);
    append_attributes(&mut message, block_origin(seed, block));
    append_prefixes(&mut message, first, prefixes);
    message
}

/// The origin AS of a block.
fn block_origin(seed: u32, block: u32) -> u32
    ensures { result ≡ spec.block_origin seed block }
{
    100_000 + (seed as u64 * block as u64 % 50_000) as u32
}

/// The header of a message of this length and type.
fn header(length: u16, kind: u8) -> FewOctets
    ensures { result ≡ replicate 16 255 ++ (big_bytes 2 length ++ (kind ∷ [])) }
{
    let [high, low] = length.to_be_bytes();
    let mut message = FewOctets::new();
    message.append(&[0xFF; 16]);
    message.append(&[high, low, kind]);
    message
}

/// Appends that nothing is withdrawn, and the attributes with their length.
fn append_attributes(message: &mut FewOctets, origin: u32)
    requires { length message.old ≡ 19 }
    ensures { message.new ≡ message.old ++ (spec.sized [] ++ spec.sized (spec.attributes origin)) }
{
    let [a, b, c, d] = SPEAKER.to_be_bytes();
    let [e, f, g, h] = origin.to_be_bytes();
    message.append(&[0, 0, 0, 24]);
    message.append(&[0x40, ORIGIN, 1, 0]);
    message.append(&[0x40, AS_PATH, 10, AS_SEQUENCE, 2, a, b, c, d, e, f, g, h]);
    message.append(&[0x40, NEXT_HOP, 4, 192, 0, 2, 1]);
}

/// Appends so many prefixes, from the one of this number on. The octets of prefix 0 are 1, 0 and 0.
fn append_prefixes(message: &mut FewOctets, first: u32, count: u32)
    requires room { length message.old ≡ 47 }
    requires count { count ≤ 8 }
    requires within { first ≤ 4000000 }
    ensures { message.new ≡ message.old ++ flat_map spec.prefix_field (range_with_len first count) }
{
    for k in 0..count {
        let [_, high, middle, low] = (65_536 + first + k).to_be_bytes();
        message.append(&[24, high, middle, low]);
    }
}

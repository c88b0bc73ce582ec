//! One attribute as octets: flags, type, a length of one octet or of two, and the value (RFC 4271,
//! section 4.3).
ghost use Rattle.std.specs.Prelude.{◌≡◌, ◌⊎◌, ◌≤◌, length};
ghost use Rattle.std.specs.Option.{option_map};
ghost use Rattle.byteorder.specs.Endian.{big_number};
ghost use Rattle.bgp_attr.specs.Attribute.{has_flag, length_octets};
ghost use Rattle.bgp_attr.specs.Front.{attribute_front};

use byteorder::{BigEndian, ByteOrder};
use std::marker::Model;

/// The attribute is not well known: a router that does not know its type passes over it.
pub const OPTIONAL: u8 = 0x80;

/// The attribute is handed on to other routers.
pub const TRANSITIVE: u8 = 0x40;

/// The length has two octets.
pub const EXTENDED_LENGTH: u8 = 0x10;

/// An attribute that borrows its value.
#[derive(Drop)]
pub struct AttributeView<'a> {
    pub flags: u8,
    pub code: u8,
    pub value: &'a [u8],
}

impl<'a> Model for AttributeView<'a> {
    ghost use Rattle.std.specs.Prelude.{◌≤◌, length};
    ghost use Rattle.bgp_attr.specs.Attribute.{Attribute, attribute_of};

    ghost Value = { Attribute };

    ghost view = { λ a. attribute_of a.flags a.code a.value.now };

    ghost invariant = { λ a. length a.value.now ≤ 65535 };
}

/// The first attribute of the field, and the octets after it. None where the field is empty, or
/// ends within the attribute.
pub fn first(field: &[u8]) -> Option<(AttributeView<'_>, &[u8])>
    ensures { option_map (λ x. (x.0, x.1.now)) result ≡ attribute_front field.now }
{
    let [flags, code, text @ ..] = field else {
        return None;
    };
    let octets = length_octets(*flags);
    if text.len() < octets {
        return None;
    }
    let (size, text) = text.split_at(octets);
    let count = number(size);
    if text.len() < count {
        return None;
    }
    let (value, rest) = text.split_at(count);
    let attribute = AttributeView {
        flags: *flags,
        code: *code,
        value,
    };
    Some((attribute, rest))
}

/// Whether the octet of flags has the flag.
pub fn has_flag(flag: u8, flags: u8) -> bool
    ensures { result ≡ has_flag flag flags }
{
    flags & flag != 0
}

/// How many octets the length has.
fn length_octets(flags: u8) -> usize
    ensures { result ≡ length_octets flags }
{
    if has_flag(EXTENDED_LENGTH, flags) {
        return 2;
    }
    1
}

/// The number of one octet or of two.
fn number(octets: &[u8]) -> usize
    requires { (length octets.now ≡ 1) ⊎ (length octets.now ≡ 2) }
    ensures value { result ≡ big_number (length octets.now) octets.now }
    ensures within { result ≤ 65535 }
{
    if octets.len() == 2 {
        return BigEndian::read_u16(octets) as usize;
    }
    octets[0] as usize
}

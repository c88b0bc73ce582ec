//! Path attributes, read plainly: a list of them, or the subcode of the first fault (RFC 4271,
//! sections 4.3 and 6.3; RFC 4760, sections 3 and 4; RFC 6793, sections 3 and 4.1).
use super::octets::{counted, number};
use super::paths::{hops_of, octets_per};
use super::prefixes::prefixes_of;
use std::alloc::{AllocError, Global};

/// What the peer's OPEN told: AS numbers of four octets or of two, and whether IPv6 was listed.
#[derive(Clone, Copy, Debug)]
pub struct Told {
    pub is_four: bool,
    pub lists_v6: bool,
}

/// An attribute.
#[derive(Clone, Copy)]
pub struct PlainAttribute<'a> {
    pub flags: u8,
    pub code: u8,
    pub value: &'a [u8],
}

/// The attributes of a field in their order, or the subcode of the first fault.
pub fn attributes_of<'a>(
    alloc: Global,
    field: &'a [u8],
    told: Told,
) -> Result<Result<Vec<PlainAttribute<'a>>, u8>, AllocError> {
    let mut attributes = Vec::new(alloc);
    let mut rest = field;
    for _ in 0..field.len() {
        if rest.is_empty() {
            break;
        }
        let Some((attribute, after)) = first_attribute(rest) else {
            return Ok(Err(1));
        };
        if value_of(attributes.as_slice(), attribute.code).is_some() {
            return Ok(Err(1));
        }
        if let Some(fault) = own_fault(alloc, attribute, told)? {
            return Ok(Err(fault));
        }
        attributes.push(attribute)?;
        rest = after;
    }
    Ok(Ok(attributes))
}

/// The value of the attribute of a type.
pub fn value_of<'a>(attributes: &[PlainAttribute<'a>], code: u8) -> Option<&'a [u8]> {
    for attribute in attributes {
        if attribute.code == code {
            return Some(attribute.value);
        }
    }
    None
}

fn first_attribute(text: &[u8]) -> Option<(PlainAttribute<'_>, &[u8])> {
    let [flags, code, after @ ..] = text else {
        return None;
    };
    let size = if flags & 0x10 == 0 { 1 } else { 2 };
    let Some((value, rest)) = counted(after, size) else {
        return None;
    };
    let attribute = PlainAttribute {
        flags: *flags,
        code: *code,
        value,
    };
    Some((attribute, rest))
}

/// The subcode of the first fault of an attribute by itself.
fn own_fault(
    alloc: Global,
    attribute: PlainAttribute,
    told: Told,
) -> Result<Option<u8>, AllocError> {
    let Some((flags, length)) = asked_of(attribute.code, told) else {
        let is_optional = attribute.flags & 0x80 != 0;
        return Ok(if is_optional { None } else { Some(2) });
    };
    if attribute.flags & 0xC0 != flags {
        return Ok(Some(4));
    }
    if let Some(length) = length {
        if attribute.value.len() != length {
            return Ok(Some(5));
        }
    }
    value_fault(alloc, attribute, told)
}

/// The optional and the transitive flag of a type, and how long its value is, if that is fixed.
fn asked_of(code: u8, told: Told) -> Option<(u8, Option<usize>)> {
    match code {
        1 => Some((0x40, Some(1))),
        2 => Some((0x40, None)),
        3 => Some((0x40, Some(4))),
        4 => Some((0x80, Some(4))),
        5 => Some((0x40, Some(4))),
        6 => Some((0x40, Some(0))),
        7 => Some((0xC0, Some(4 + octets_per(told.is_four)))),
        14 => Some((0x80, None)),
        15 => Some((0x80, None)),
        17 => Some((0xC0, None)),
        18 => Some((0xC0, None)),
        _ => None,
    }
}

fn value_fault(
    alloc: Global,
    attribute: PlainAttribute,
    told: Told,
) -> Result<Option<u8>, AllocError> {
    let value = attribute.value;
    let (is_good, fault) = match attribute.code {
        1 => (number(value) <= 2, 6),
        2 => (hops_of(alloc, value, told.is_four)?.is_some(), 11),
        3 => (number(value) > 0 && number(value) < 0xE000_0000, 8),
        14 => (is_good_field(alloc, reach_of(value, told))?, 9),
        15 => (is_good_field(alloc, unreach_of(value, told))?, 9),
        _ => (true, 0),
    };
    Ok(if is_good { None } else { Some(fault) })
}

/// Whether there is a field, and it is prefixes of IPv6.
fn is_good_field(alloc: Global, field: Option<&[u8]>) -> Result<bool, AllocError> {
    match field {
        None => Ok(false),
        Some(field) => Ok(prefixes_of(alloc, field, true)?.is_some()),
    }
}

/// The field of prefixes in MP_REACH_NLRI, empty where it is passed over. None where the octets end
/// before it, or the next hop is of neither length.
pub fn reach_of(value: &[u8], told: Told) -> Option<&[u8]> {
    let Some(family) = value.get(..3) else {
        return None;
    };
    if number(family) != 0x0002_01 || !told.lists_v6 {
        return Some(&[]);
    }
    let Some(behind) = value.get(3..) else {
        return None;
    };
    let Some((hop, rest)) = counted(behind, 1) else {
        return None;
    };
    if hop.len() != 16 && hop.len() != 32 {
        return None;
    }
    rest.get(1..)
}

/// The field of prefixes in MP_UNREACH_NLRI, empty where it is passed over. None where there is no
/// family.
pub fn unreach_of(value: &[u8], told: Told) -> Option<&[u8]> {
    let Some(family) = value.get(..3) else {
        return None;
    };
    if number(family) != 0x0002_01 || !told.lists_v6 {
        return Some(&[]);
    }
    value.get(3..)
}

//! The body of an UPDATE, read plainly: what it withdraws and announces with which origin, or the
//! subcode of its first fault (RFC 4271, sections 4.3 and 6.3; RFC 6793, section 4.2.3).
ghost use Rattle.std.specs.Prelude.{◌<◌};

use super::attributes::{PlainAttribute, Told, attributes_of, reach_of, unreach_of, value_of};
use super::octets::number;
use super::paths::{PlainHop, hops_of, merged, octets_per, origin_of};
use super::prefixes::{PlainPrefix, prefixes_of};
use std::alloc::{AllocError, Global};

/// What an UPDATE says.
#[derive(Debug, Drop, PartialEq)]
pub struct PlainUpdate {
    pub withdrawn: Vec<PlainPrefix>,
    pub announced: Vec<PlainPrefix>,
    pub origin: Option<u64>,
}

/// The three fields of a body.
#[derive(Clone, Copy)]
struct PlainFields<'a> {
    withdrawn: &'a [u8],
    attributes: &'a [u8],
    nlri: &'a [u8],
}

/// What a body says, or the subcode of its first fault.
pub fn update_of(
    alloc: Global,
    body: &[u8],
    told: Told,
) -> Result<Result<PlainUpdate, u8>, AllocError> {
    let Some(fields) = fields_of(body) else {
        return Ok(Err(1));
    };
    let nlri = fields.nlri;
    let Some(mut withdrawn) = prefixes_of(alloc, fields.withdrawn, false)? else {
        return Ok(Err(10));
    };
    let attributes = match attributes_of(alloc, fields.attributes, told)? {
        Ok(attributes) => attributes,
        Err(fault) => return Ok(Err(fault)),
    };
    let attributes = attributes.as_slice();
    if is_any_missing(attributes, nlri, told) {
        return Ok(Err(3));
    }
    let Some(mut announced) = prefixes_of(alloc, nlri, false)? else {
        return Ok(Err(10));
    };
    let unreach = prefixes_of(alloc, unreach_in(attributes, told), true)?;
    put_all(&mut withdrawn, unreach)?;
    let reach = prefixes_of(alloc, reach_in(attributes, told), true)?;
    put_all(&mut announced, reach)?;
    let hops = hops_in(alloc, attributes, told)?;
    Ok(Ok(PlainUpdate {
        withdrawn,
        announced,
        origin: origin_of(hops.as_slice()),
    }))
}

/// The fields of a body. None where both lengths and the octets that they say are more than it has.
fn fields_of(body: &[u8]) -> Option<PlainFields<'_>> {
    let withdrawn = number_at(body, 0);
    if withdrawn + 4 > body.len() {
        return None;
    }
    let attributes = number_at(body, 2 + withdrawn);
    let end = withdrawn + attributes + 4;
    if end > body.len() {
        return None;
    }
    Some(PlainFields {
        withdrawn: body.get(2..2 + withdrawn).unwrap_or(&[]),
        attributes: body.get(4 + withdrawn..end).unwrap_or(&[]),
        nlri: body.get(end..).unwrap_or(&[]),
    })
}

/// The number in the two octets from a place on.
fn number_at(body: &[u8], place: usize) -> usize
    ensures { result < 65536 }
{
    let high = body.get(place).copied().unwrap_or(0);
    let low = body.get(place.wrapping_add(1)).copied().unwrap_or(0);
    high as usize * 256 + low as usize
}

fn put_all(
    prefixes: &mut Vec<PlainPrefix>,
    more: Option<Vec<PlainPrefix>>,
) -> Result<(), AllocError> {
    if let Some(more) = more {
        prefixes.extend_from_slice(more.as_slice())?;
    }
    Ok(())
}

/// Whether an announced route lacks ORIGIN or AS_PATH, or one in the NLRI lacks NEXT_HOP.
fn is_any_missing(attributes: &[PlainAttribute], nlri: &[u8], told: Told) -> bool {
    let lacks = |code: u8| value_of(attributes, code).is_none();
    let is_announcing = !nlri.is_empty() || !reach_in(attributes, told).is_empty();
    is_announcing && (lacks(1) || lacks(2)) || !nlri.is_empty() && lacks(3)
}

fn reach_in<'a>(attributes: &[PlainAttribute<'a>], told: Told) -> &'a [u8] {
    match value_of(attributes, 14) {
        None => &[],
        Some(value) => reach_of(value, told).unwrap_or(&[]),
    }
}

fn unreach_in<'a>(attributes: &[PlainAttribute<'a>], told: Told) -> &'a [u8] {
    match value_of(attributes, 15) {
        None => &[],
        Some(value) => unreach_of(value, told).unwrap_or(&[]),
    }
}

/// The hops of the route.
fn hops_in(
    alloc: Global,
    attributes: &[PlainAttribute],
    told: Told,
) -> Result<Vec<PlainHop>, AllocError> {
    let value = value_of(attributes, 2).unwrap_or(&[]);
    let path = hops_of(alloc, value, told.is_four)?.unwrap_or(Vec::new(alloc));
    if told.is_four || is_ignored(attributes) {
        return Ok(path);
    }
    let value = value_of(attributes, 17).unwrap_or(&[]);
    let four = hops_of(alloc, value, true)?.unwrap_or(Vec::new(alloc));
    if value_of(attributes, 2).is_none() {
        return Ok(path);
    }
    merged(alloc, path.as_slice(), four.as_slice())
}

/// Whether AS4_PATH is ignored: AGGREGATOR and an AS4_AGGREGATOR of 8 octets are both there, and
/// AGGREGATOR's AS is not AS_TRANS, 23456.
fn is_ignored(attributes: &[PlainAttribute]) -> bool {
    let Some(own) = value_of(attributes, 7) else {
        return false;
    };
    let Some(four) = value_of(attributes, 18) else {
        return false;
    };
    let own = own.get(..octets_per(false)).unwrap_or(&[]);
    four.len() == 8 && number(own) != 23456
}

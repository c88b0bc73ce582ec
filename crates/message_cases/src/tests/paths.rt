//! AS paths, read plainly: hops in a list (RFC 4271, sections 4.3 and 9.1.2.2, a), and the path
//! that AS_PATH and AS4_PATH make together (RFC 6793, section 4.2.3).
ghost use Rattle.std.specs.Prelude.{◌≤◌};

use super::octets::{number, parted};
use std::alloc::{AllocError, Global};

/// An AS, or all of a set.
#[derive(Clone, Copy, Debug, PartialEq, Eq)]
pub enum PlainHop {
    One(u64),
    Set,
}

/// A segment, and what comes after it.
#[derive(Clone, Copy)]
struct PlainSegment<'a> {
    is_set: bool,
    numbers: &'a [u8],
    rest: &'a [u8],
}

/// How many octets an AS number takes.
pub fn octets_per(is_four: bool) -> usize
    ensures { result ≤ 4 }
{
    if is_four { 4 } else { 2 }
}

/// The hops of a path. None where it is malformed.
pub fn hops_of(
    alloc: Global,
    value: &[u8],
    is_four: bool,
) -> Result<Option<Vec<PlainHop>>, AllocError> {
    let mut hops = Vec::new(alloc);
    let mut rest = value;
    for _ in 0..value.len() {
        if rest.is_empty() {
            break;
        }
        let Some(segment) = first_segment(rest, is_four) else {
            return Ok(None);
        };
        if segment.is_set {
            hops.push(PlainHop::Set)?;
        } else {
            put_numbers(&mut hops, segment.numbers, is_four)?;
        }
        rest = segment.rest;
    }
    Ok(Some(hops))
}

fn first_segment(text: &[u8], is_four: bool) -> Option<PlainSegment<'_>> {
    let [kind, count, after @ ..] = text else {
        return None;
    };
    if *kind != 1 && *kind != 2 {
        return None;
    }
    if *count == 0 {
        return None;
    }
    let Some((numbers, rest)) = parted(after, *count as usize * octets_per(is_four)) else {
        return None;
    };
    let is_set = *kind == 1;
    Some(PlainSegment {
        is_set,
        numbers,
        rest,
    })
}

fn put_numbers(hops: &mut Vec<PlainHop>, numbers: &[u8], is_four: bool) -> Result<(), AllocError> {
    let mut rest = numbers;
    for _ in 0..numbers.len() {
        let Some((one, after)) = parted(rest, octets_per(is_four)) else {
            break;
        };
        hops.push(PlainHop::One(number(one)))?;
        rest = after;
    }
    Ok(())
}

/// The leading surplus of AS_PATH, and then AS4_PATH, or AS_PATH alone where it has fewer hops.
pub fn merged(
    alloc: Global,
    path: &[PlainHop],
    four: &[PlainHop],
) -> Result<Vec<PlainHop>, AllocError> {
    let mut hops = Vec::new(alloc);
    if path.len() < four.len() {
        hops.extend_from_slice(path)?;
        return Ok(hops);
    }
    let surplus = path.len() - four.len();
    hops.extend_from_slice(path.get(..surplus).unwrap_or(&[]))?;
    hops.extend_from_slice(four)?;
    Ok(hops)
}

/// The last AS, unless it is 0 or one of a set.
pub fn origin_of(hops: &[PlainHop]) -> Option<u64> {
    match hops.last() {
        None => None,
        Some(PlainHop::Set) => None,
        Some(PlainHop::One(0)) => None,
        Some(PlainHop::One(number)) => Some(*number),
    }
}

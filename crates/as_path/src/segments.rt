//! One segment of a path: its type, of one octet, how many AS numbers it has, of one octet, and the
//! AS numbers, of two octets each or of four (RFC 4271, section 4.3; RFC 6793, section 3).
ghost use Rattle.std.specs.Prelude.{◌≡◌, ◌<◌, ◌≤◌, ◌*◌, ◌-◌, ℕ, List, length, drop, IfSome};
ghost use Rattle.std.specs.Option.{option_map};
ghost use Rattle.byteorder.specs.Endian.{big_number};
ghost use Rattle.as_path.specs.Path.{octets_per};
ghost use Rattle.as_path.specs.Hops.{hops_of, origin, unless_zero};
ghost use Rattle.as_path.specs.Front.{segment_front, segment_from, numbers_in, type_from};

use crate::widths::Width;
use byteorder::{BigEndian, ByteOrder};

/// An unordered set of AS numbers.
const AS_SET: u8 = 1;

/// AS numbers in the order of the path.
const AS_SEQUENCE: u8 = 2;

/// What a segment is. Those of confederations, 3 and 4, are malformed here (RFC 5065, section 5).
#[derive(Clone, Copy, Debug, PartialEq, Eq)]
pub enum SegmentType {
    Set,
    Sequence,
}

/// A segment, and what follows it in the path.
#[derive(Clone, Copy)]
pub struct Cut<'a> {
    pub segment_type: SegmentType,
    pub count: u8,
    pub numbers: &'a [u8],
    pub rest: &'a [u8],
}

/// The first segment of the path. None where the path is empty, the type is not known, the segment
/// has no AS number, or the octets end before it does.
pub fn first(path: &[u8], width: Width) -> Option<Cut<'_>>
    ensures segment { option_map (λ c. (
      segment_from c.segment_type
          (numbers_in width c.numbers.now),
      c.rest.now,
    )) result ≡ segment_front width path.now }
    ensures whole { IfSome result (λ c. length c.numbers.now ≡ c.count * octets_per width) }
    ensures some { IfSome result (λ c. 0 < c.count) }
{
    let [octet, count, text @ ..] = path else {
        return None;
    };
    let Some(segment_type) = type_from(*octet) else {
        return None;
    };
    if *count == 0 {
        return None;
    }
    let size = *count as usize * octets_per(width);
    if text.len() < size {
        return None;
    }
    let (numbers, rest) = text.split_at(size);
    Some(Cut {
        segment_type,
        count: *count,
        numbers,
        rest,
    })
}

/// The type that the octet means, if any.
fn type_from(octet: u8) -> Option<SegmentType>
    ensures { result ≡ type_from octet }
{
    if octet == AS_SET {
        return Some(SegmentType::Set);
    }
    if octet == AS_SEQUENCE {
        return Some(SegmentType::Sequence);
    }
    None
}

/// How many octets an AS number takes.
fn octets_per(width: Width) -> usize
    ensures { result ≡ octets_per width }
{
    match width {
        Width::Two => 2,
        Width::Four => 4,
    }
}

/// How many hops a segment of so many AS numbers has (RFC 4271, section 9.1.2.2, a).
pub fn hop_count(segment_type: SegmentType, count: u8) -> u32
    ensures { (numbers : List ℕ) → length numbers ≡ count
        → result ≡ length (hops_of (segment_from segment_type numbers)) }
{
    match segment_type {
        SegmentType::Set => 1,
        SegmentType::Sequence => count as u32,
    }
}

/// The origin of a path that ends in this segment: its last AS number, unless it is a set or that
/// number is 0.
pub fn origin_of_segment(segment_type: SegmentType, numbers: &[u8], width: Width) -> Option<u32>
    requires { (count : ℕ) × (0 < count) × (length numbers.now ≡ count * octets_per width) }
    ensures { result ≡ origin (hops_of (segment_from segment_type (numbers_in width numbers.now))) }
{
    match segment_type {
        SegmentType::Set => None,
        SegmentType::Sequence => unless_zero(last_number(numbers, width)),
    }
}

/// The last AS number of a sequence.
fn last_number(numbers: &[u8], width: Width) -> u32
    requires { octets_per width ≤ length numbers.now }
    ensures { result ≡ big_number (octets_per width)
        (drop (length numbers.now - octets_per width) numbers.now) }
{
    let last = &numbers[numbers.len() - octets_per(width)..];
    match width {
        Width::Two => BigEndian::read_u16(last) as u32,
        Width::Four => BigEndian::read_u32(last),
    }
}

/// AS 0 is the origin of nothing (RFC 7607, section 2).
fn unless_zero(number: u32) -> Option<u32>
    ensures { result ≡ unless_zero number }
{
    if number == 0 {
        return None;
    }
    Some(number)
}

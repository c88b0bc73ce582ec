//! A path: the value of an AS_PATH or an AS4_PATH comes in, and a view of it goes out, which tells
//! the hops and the last AS number. It borrows the octets.
ghost use Rattle.std.specs.Prelude.{◌≡◌, ◌≤◌, ◌↔◌, List, length, IsTrue, IfSome, Some};
ghost use Rattle.as_path.specs.Path.{Segment, IsPath};
ghost use Rattle.as_path.specs.Hops.{hops, origin};
ghost use Rattle.as_path.specs.Front.{segments_in};

use crate::segments::{first, hop_count, origin_of_segment};
use crate::widths::Width;
use std::marker::Model;

/// A well formed path that borrows its octets. Contracts see the list of its segments.
#[derive(Debug, Drop)]
pub struct PathView<'a> {
    value: &'a [u8],
    width: Width,
}

impl<'a> Model for PathView<'a> {
    ghost use Rattle.std.specs.Prelude.{◌≤◌, List, length};
    ghost use Rattle.as_path.specs.Path.{Segment, IsPath};

    ghost Value = { List Segment };

    ghost use Rattle.as_path.specs.Front.{segments_in};

    ghost view = { λ p. segments_in p.width p.value.now };

    ghost invariant = { λ p. (length p.value.now ≤ 65535)
        × IsPath p.width p.value.now (segments_in p.width p.value.now) };
}

impl<'a> PathView<'a> {
    /// The path that the value of an attribute is. None where it is malformed: a segment of another
    /// type, one without an AS number, or one that runs past the value (RFC 4271, section 6.3;
    /// RFC 7606, section 7.2). An empty value is a path without segments, which an AS_PATH may be
    /// and an AS4_PATH may not.
    pub fn read(value: &'a [u8], width: Width) -> Option<PathView<'a>>
        requires { length value.now ≤ 65535 }
        ensures found { IfSome result (λ path. IsPath width value.now path) }
        ensures only { (segments : List Segment) → IsPath width value.now segments
            → result ≡ Some segments }
    {
        if !is_path(value, width) {
            return None;
        }
        Some(PathView { value, width })
    }

    /// How many hops the path has: one for each AS of a sequence, and one for each set (RFC 4271,
    /// section 9.1.2.2, a).
    pub fn hops(&self) -> u32
        ensures { result ≡ length (hops self.now) }
    {
        count_hops(self.value, self.width)
    }

    /// The AS number that the path ends in, unless it is 0 or one of a set. None for an empty path.
    pub(crate) fn origin(&self) -> Option<u32>
        ensures { result ≡ origin (hops self.now) }
    {
        last_origin(self.value, self.width)
    }
}

/// Whether the value is segments one after the other, and nothing else.
fn is_path(value: &[u8], width: Width) -> bool
    ensures { IsTrue result ↔ ((segments : List Segment) × IsPath width value.now segments) }
{
    let mut rest = value;
    while !rest.is_empty() {
        let Some(segment) = first(rest, width) else {
            return false;
        };
        rest = segment.rest;
    }
    true
}

/// How many hops the segments of a path have.
fn count_hops(value: &[u8], width: Width) -> u32
    requires within { length value.now ≤ 65535 }
    requires path { IsPath width value.now (segments_in width value.now) }
    ensures { result ≡ length (hops (segments_in width value.now)) }
{
    let mut count = 0;
    let mut rest = value;
    while let Some(segment) = first(rest, width) {
        count += hop_count(segment.segment_type, segment.count);
        rest = segment.rest;
    }
    count
}

/// The origin by the last segment of a path. What comes before that segment does not count.
fn last_origin(value: &[u8], width: Width) -> Option<u32>
    requires { IsPath width value.now (segments_in width value.now) }
    ensures { result ≡ origin (hops (segments_in width value.now)) }
{
    let mut origin = None;
    let mut rest = value;
    while let Some(segment) = first(rest, width) {
        origin = origin_of_segment(segment.segment_type, segment.numbers, width);
        rest = segment.rest;
    }
    origin
}

//! Recordings in memory, and what a feed tells of them.
ghost use Rattle.std.specs.Prelude.{◌<◌, ◌≤◌};

use feed_io::{Feed, FeedEvent};
use std::alloc::{AllocError, Global};
use std::process::Abort;
use urpf_base::{Addr, Failed};

/// The most octets that one call is asked for.
pub const BUFFER_OCTETS: usize = 64;

/// The peer whose session is recorded.
pub const PEER: Addr = Addr::V4(0xC000_0201);

/// Peer 64501 and local AS 64496 in four octets each, interface 0, IPv4, 192.0.2.1 and 192.0.2.2.
pub const WIDE: &[u8] = &[
    0x00, 0x00, 0xFB, 0xF5, 0x00, 0x00, 0xFB, 0xF0, 0x00, 0x00, 0x00, 0x01, 0xC0, 0x00, 0x02, 0x01,
    0xC0, 0x00, 0x02, 0x02,
];

/// The same with AS numbers of two octets.
pub const NARROW: &[u8] = &[
    0xFB, 0xF5, 0xFB, 0xF0, 0x00, 0x00, 0x00, 0x01, 0xC0, 0x00, 0x02, 0x01, 0xC0, 0x00, 0x02, 0x02,
];

/// A record: its type and subtype, its length as it says it, and its octets in two parts.
#[derive(Clone, Copy)]
pub struct Record {
    pub kind: u16,
    pub subkind: u16,
    pub count: u32,
    pub front: &'static [u8],
    pub back: &'static [u8],
}

/// Appends a record of the time 0.
fn append(octets: &mut Vec<u8>, record: &Record) -> Result<(), AllocError> {
    octets.extend_from_slice(&[0; 4])?;
    octets.extend_from_slice(&record.kind.to_be_bytes())?;
    octets.extend_from_slice(&record.subkind.to_be_bytes())?;
    octets.extend_from_slice(&record.count.to_be_bytes())?;
    octets.extend_from_slice(record.front)?;
    octets.extend_from_slice(record.back)
}

/// A recording of these records.
pub fn recording(rt: &(impl Abort + AllocGlobal), records: &[Record]) -> Vec<u8> {
    let mut octets = Vec::new(rt.alloc());
    for record in records {
        append(&mut octets, record).expect(rt, "memory");
    }
    octets
}

/// The pieces, joined.
fn joined(rt: &(impl Abort + AllocGlobal), pieces: &[&[u8]]) -> Vec<u8> {
    let mut octets = Vec::new(rt.alloc());
    for piece in pieces {
        octets.extend_from_slice(piece).expect(rt, "memory");
    }
    octets
}

/// What a feed tells up to its end or its first failure: the events, and all octets.
fn told<F: Feed>(alloc: Global, feed: &mut F, room: usize) -> Result<(String, Vec<u8>), AllocError>
    requires some { 0 < room }
    requires within { room ≤ 64 }
{
    let mut buf = [0u8; BUFFER_OCTETS];
    let mut events = String::new(alloc);
    let mut octets = Vec::new(alloc);
    for _ in 0..300 {
        match feed.next(&mut buf[..room]) {
            Ok(FeedEvent::End) => {
                events.push_str("End")?;
                return Ok((events, octets));
            }
            Ok(event) => {
                events.push_str(format!(in alloc; "{event:?} ")?.as_str())?;
                if let FeedEvent::Octets(count) = event {
                    octets.extend_from_slice(&buf[..count])?;
                }
            }
            Err(Failed) => {
                events.push_str("Failed")?;
                return Ok((events, octets));
            }
        }
    }
    Ok((events, octets))
}

/// That the feed tells these events, and the octets of these pieces.
pub fn is_told<F: Feed>(
    rt: &(impl Abort + AllocGlobal),
    feed: &mut F,
    room: usize,
    events: &str,
    pieces: &[&[u8]],
)
    requires some { 0 < room }
    requires within { room ≤ 64 }
{
    let (was, held) = told(rt.alloc(), feed, room).expect(rt, "memory");
    assert_eq!(rt; was.as_str(), events);
    assert_eq!(rt; held.as_slice(), joined(rt, pieces).as_slice(), "{events}");
}

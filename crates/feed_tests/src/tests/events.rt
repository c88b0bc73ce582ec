//! Feeds in memory.
ghost use Rattle.std.specs.Prelude.{◌<◌, ◌≤◌};

use feed_io::{Feed, FeedEvent, MemFeed, SureFeed};
use std::alloc::{AllocError, Global};
use std::process::Abort;
use urpf_base::{Failed, OutOfMemory};

/// The most octets that one call is asked for.
pub const BUFFER_OCTETS: usize = 64;

/// What a feed tells up to its end or its first failure: the events, and all octets.
fn told<F: Feed>(alloc: Global, feed: &mut F, room: usize) -> Result<(String, Vec<u8>), AllocError>
    requires some { 0 < room }
    requires within { room ≤ 64 }
{
    let mut buf = [0u8; BUFFER_OCTETS];
    let mut events = String::new(alloc);
    let mut octets = Vec::new(alloc);
    for _ in 0..100 {
        match feed.next(&mut buf[..room]) {
            Ok(FeedEvent::End) => {
                events.push_str("End")?;
                return Ok((events, octets));
            }
            Ok(event) => {
                events.push_str(format!(in alloc; "{event:?} ")?.as_str())?;
                if let FeedEvent::Octets(count) = event {
                    octets.extend_from_slice(&buf[..count])?;
                }
            }
            Err(Failed) => {
                events.push_str("Failed")?;
                return Ok((events, octets));
            }
        }
    }
    Ok((events, octets))
}

/// That the feed tells these events and octets.
pub fn is_told<F: Feed>(
    rt: &(impl Abort + AllocGlobal),
    feed: &mut F,
    room: usize,
    events: &str,
    octets: &[u8],
)
    requires some { 0 < room }
    requires within { room ≤ 64 }
{
    let (was, held) = told(rt.alloc(), feed, room).expect(rt, "memory");
    assert_eq!(rt; was.as_str(), events);
    assert_eq!(rt; held.as_slice(), octets);
}

/// An event that is appended to a feed in memory.
#[derive(Clone, Copy)]
enum Appended {
    Up,
    Octets(&'static [u8]),
    Down,
    Elapsed(u32),
}

/// Appends an event to both feeds in memory.
fn append(sure: &mut SureFeed, mem: &mut MemFeed, event: Appended) -> Result<(), OutOfMemory> {
    match event {
        Appended::Up => {
            sure.up()?;
            mem.up()
        }
        Appended::Octets(piece) if !piece.is_empty() && piece.len() <= 65_535 => {
            sure.octets(piece)?;
            mem.octets(piece)
        }
        Appended::Octets(_) => Ok(()),
        Appended::Down => {
            sure.down()?;
            mem.down()
        }
        Appended::Elapsed(seconds) => {
            sure.elapsed(seconds)?;
            mem.elapsed(seconds)
        }
    }
}

/// Both feeds in memory of these events. `fails` holds the numbers of the calls of the second that
/// fail.
fn feeds(
    rt: &(impl Abort + AllocGlobal),
    events: &[Appended],
    fails: &[u64],
) -> (SureFeed, MemFeed) {
    let fails = Vec::from_slice(rt.alloc(), fails).expect(rt, "memory");
    let mut sure = SureFeed::new(rt.alloc());
    let mut mem = MemFeed::new(rt.alloc(), fails);
    for event in events {
        append(&mut sure, &mut mem, *event).expect(rt, "memory");
    }
    (sure, mem)
}

/// Events, how many octets a call may give, and what is told: events, and octets.
const ROWS: [(&[Appended], usize, &str, &[u8]); 5] = [
    // A session.
    (
        &[
            Appended::Up,
            Appended::Octets(b"open"),
            Appended::Octets(b"keepalive"),
            Appended::Octets(b"update"),
        ],
        64,
        "Up Octets(4) Octets(9) Octets(6) End",
        b"openkeepaliveupdate",
    ),
    // Seconds between octets.
    (
        &[
            Appended::Up,
            Appended::Elapsed(2),
            Appended::Octets(b"keepalive"),
            Appended::Elapsed(4_294_967_295),
        ],
        64,
        "Up Elapsed(2) Octets(9) Elapsed(4294967295) End",
        b"keepalive",
    ),
    // A transport that goes down within a message.
    (
        &[
            Appended::Octets(b"upd"),
            Appended::Down,
            Appended::Up,
            Appended::Octets(b"ate"),
        ],
        64,
        "Octets(3) Down Up Octets(3) End",
        b"update",
    ),
    // Octets past the room of a call.
    (
        &[Appended::Octets(b"update"), Appended::Down],
        4,
        "Octets(4) Octets(2) Down End",
        b"update",
    ),
    (
        &[Appended::Octets(b"abc")],
        1,
        "Octets(1) Octets(1) Octets(1) End",
        b"abc",
    ),
];

/// That both feeds of each row tell this.
fn are_given(rt: &(impl Abort + AllocGlobal), rows: &[(&[Appended], usize, &str, &[u8])]) {
    for row in rows {
        let (events, room, wanted, octets) = *row;
        let (mut sure, mut mem) = feeds(rt, events, &[]);
        assert!(rt; 0 < room && room <= BUFFER_OCTETS);
        is_told(rt, &mut sure, room, wanted, octets);
        is_told(rt, &mut mem, room, wanted, octets);
    }
}

#[test]
fn events_are_given_in_their_order(rt: HostRuntime) {
    are_given(&rt, &ROWS);
}

#[test]
fn the_listed_calls_fail_and_take_nothing(rt: HostRuntime) {
    let events = [Appended::Up, Appended::Octets(b"update"), Appended::Down];
    let (_, mut mem) = feeds(&rt, &events, &[2, 4]);
    is_told(&rt, &mut mem, 4, "Up Failed", b"");
    is_told(&rt, &mut mem, 4, "Octets(4) Failed", b"upda");
    is_told(&rt, &mut mem, 4, "Octets(2) Down End", b"te");
}

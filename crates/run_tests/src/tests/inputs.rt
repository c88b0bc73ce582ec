//! Events that a test tells, feeds of them in memory, and words, sources and sinks.
use feed_io::{MemFeed, MemSink, MemSource};
use message_octets::{ANNOUNCE, KEEPALIVE, OPEN};
use std::process::Abort;
use urpf_base::OutOfMemory;

/// One event of a feed. Octets are 1 to 65,535, and seconds 1 or more.
#[derive(Clone, Copy)]
pub enum Event<'a> {
    Up,
    Octets(&'a [u8]),
    Down,
    Elapsed(u32),
}

/// A session of AS 64501 up to its first route, of 198.51.100.0/24.
pub const FULL: &[Event<'static>] = &[
    Event::Up,
    Event::Octets(&OPEN),
    Event::Octets(&KEEPALIVE),
    Event::Octets(&ANNOUNCE),
];

/// Interface 0, a customer whose feasible paths count, and a session with AS 64501 on it.
pub const ONE_CUSTOMER: &str = "\
interface = [{number = 0, role = \"customer\", mode = \"feasible\"}]
session = [{interface = 0, peer_as = 64501}]
";

/// Appends an event. No octets are no event, and neither are too many.
fn append(feed: &mut MemFeed, event: Event<'_>) -> Result<(), OutOfMemory> {
    match event {
        Event::Up => feed.up(),
        Event::Octets(piece) if !piece.is_empty() && piece.len() <= 65_535 => feed.octets(piece),
        Event::Octets(_) => Ok(()),
        Event::Down => feed.down(),
        Event::Elapsed(seconds) => feed.elapsed(seconds),
    }
}

/// A feed of these events. These calls of it fail, by their numbers from 1.
pub fn feed(rt: &(impl Abort + AllocGlobal), events: &[Event<'_>], fails: &[u64]) -> MemFeed {
    let mut feed = MemFeed::new(rt.alloc(), copied(rt, fails));
    for event in events {
        append(&mut feed, *event).expect(rt, "memory");
    }
    feed
}

/// Numbers that are owned.
fn copied(rt: &(impl Abort + AllocGlobal), numbers: &[u64]) -> Vec<u64> {
    Vec::from_slice(rt.alloc(), numbers).expect(rt, "memory")
}

/// A command line of these words.
pub fn words(rt: &(impl Abort + AllocGlobal), words: &[&str]) -> Vec<String> {
    let mut line = Vec::new(rt.alloc());
    for word in words {
        let word = String::from_str(rt.alloc(), word).expect(rt, "memory");
        line.push(word).expect(rt, "memory");
    }
    line
}

/// A source of these octets. These reads of it fail, by their numbers from 1.
pub fn source(rt: &(impl Abort + AllocGlobal), octets: &[u8], fails: &[u64]) -> MemSource {
    let octets = Vec::from_slice(rt.alloc(), octets).expect(rt, "memory");
    MemSource::new(octets, copied(rt, fails))
}

/// A sink with room for 8,192 octets. These writes of it fail, by their numbers from 1.
pub fn sink(rt: &(impl Abort + AllocGlobal), fails: &[u64]) -> MemSink {
    let room = Vec::with_capacity(rt.alloc(), 8192).expect(rt, "memory");
    MemSink::new(room, copied(rt, fails))
}

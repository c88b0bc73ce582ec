//! The sessions, packets and runs that tests are made of.
use feed_io::{BoxedFeed, Gate, MARKER, MemFeed, MemSink, MemSource, PACKET};
use live_rounds::LiveFault;
use live_run::run_live;
use message_octets::{ANNOUNCE, KEEPALIVE, OPEN};
use router_config::read_config;
use runbook::read_book;
use std::process::Abort;
use std::sync::Wait;
use std::thread::Threads;

/// Interface 0, a customer whose feasible paths count, and a session with AS 64501 on it.
const ONE_CUSTOMER: &str = "\
interface = [{number = 0, role = \"customer\", mode = \"feasible\"}]
session = [{interface = 0, peer_as = 64501}]
";

/// A header of IPv4 (RFC 791, section 3.1), from 198.51.100.9 to 203.0.113.1, with nothing behind it.
const HEADER: [u8; 20] = [
    0x45, 0, 0, 0x14, 0, 0, 0, 0, 0x40, 0x11, 0, 0, 198, 51, 100, 9, 203, 0, 113, 1,
];

/// Appends a piece of a stream: `P` is a packet of interface 0, `Q` the same of interface 9, `E` one of
/// interface 0 without octets, `M` a marker, and `C` a packet that is cut off within its header.
fn append(rt: &impl Abort, octets: &mut Vec<u8>, letter: u8) {
    let (head, len): (&[u8], usize) = match letter {
        b'P' => (&[PACKET, 0, 0, 0, 20], 20),
        b'Q' => (&[PACKET, 0, 9, 0, 20], 20),
        b'E' => (&[PACKET, 0, 0, 0, 0], 0),
        b'M' => (&[MARKER], 0),
        _ => (&[PACKET, 0, 0, 0, 20], 1),
    };
    octets.extend_from_slice(head).expect(rt, "memory");
    octets
        .extend_from_slice(&HEADER[..len])
        .expect(rt, "memory");
}

/// A stream of these pieces.
fn stream(rt: &(impl Abort + AllocGlobal), pieces: &str) -> MemSource {
    let mut octets = Vec::new(rt.alloc());
    for letter in pieces.as_bytes() {
        append(rt, &mut octets, *letter);
    }
    MemSource::new(octets, Vec::new(rt.alloc()))
}

/// A session of AS 64501 up to its first route, of 198.51.100.0/24.
fn session(rt: &(impl Abort + AllocGlobal)) -> MemFeed {
    let mut feed = MemFeed::new(rt.alloc(), Vec::new(rt.alloc()));
    feed.up().expect(rt, "memory");
    feed.octets(&OPEN).expect(rt, "memory");
    feed.octets(&KEEPALIVE).expect(rt, "memory");
    feed.octets(&ANNOUNCE).expect(rt, "memory");
    feed
}

/// What a run of this book comes to, over that session and a worker for each of these streams, and its
/// text, whose room is 8,192 octets.
pub fn run<R: Threads + Wait + Abort + AllocGlobal + Sync, G: Gate + Sync>(
    rt: &R,
    book: &str,
    streams: &[&str],
    gate: &G,
) -> (Result<(), LiveFault>, MemSink) {
    let config = read_config(rt.alloc(), ONE_CUSTOMER.as_bytes()).expect(rt, "a configuration");
    assert!(rt; book.len() <= 1_000);
    let Ok(book) = read_book(rt.alloc(), book.as_bytes(), &config) else {
        panic!(rt; "a runbook");
    };
    let feed: BoxedFeed = Box::new(rt.alloc(), session(rt)).expect(rt, "memory");
    let mut feeds: Vec<Option<BoxedFeed>> = Vec::new(rt.alloc());
    feeds.push(Some(feed)).expect(rt, "memory");
    let mut packets = Vec::new(rt.alloc());
    for pieces in streams {
        packets.push(stream(rt, pieces)).expect(rt, "memory");
    }
    let room = Vec::with_capacity(rt.alloc(), 8192).expect(rt, "memory");
    let mut out = MemSink::new(room, Vec::new(rt.alloc()));
    assert!(rt; feeds.len() == config.sessions());
    assert!(rt; book.len() <= 1_000);
    assert!(rt; !packets.is_empty());
    assert!(rt; packets.len() <= 32);
    let result = run_live(
        rt,
        rt.alloc(),
        config,
        &book,
        &None,
        &mut feeds,
        &mut packets,
        &mut out,
        gate,
    );
    assert_eq!(rt; packets.len(), streams.len());
    (result, out)
}

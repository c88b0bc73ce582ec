//! Feeds over traces.
ghost use Rattle.std.specs.Prelude.{◌<◌, None, length};

use super::events::is_told;
use feed_io::{MemSource, SureSource, TraceFeed, assigned_numbers, one_trace};
use std::process::Abort;
use urpf_base::{Failed, Source};

/// Up, the octets "abc", 2 seconds, Down.
const WORKED: [u8; 13] = [
    1, // the transport comes up
    2, 0, 3, b'a', b'b', b'c', // three octets
    4, 0, 0, 0, 2, // two seconds
    3, // the transport goes down
];

/// A source in memory of these octets.
fn source(rt: &(impl Abort + AllocGlobal), octets: &[u8]) -> SureSource {
    SureSource::new(Vec::from_slice(rt.alloc(), octets).expect(rt, "memory"))
}

/// How many octets a call may give, and the events of the worked trace.
const BY_ROOM: [(usize, &str); 4] = [
    (64, "Up Octets(3) Elapsed(2) Down End"),
    (3, "Up Octets(3) Elapsed(2) Down End"),
    (2, "Up Octets(2) Octets(1) Elapsed(2) Down End"),
    (1, "Up Octets(1) Octets(1) Octets(1) Elapsed(2) Down End"),
];

/// That the worked trace gives these events.
fn are_given(rt: &(impl Abort + AllocGlobal), rows: &[(usize, &str)]) {
    for row in rows {
        let (room, events) = *row;
        assert!(rt; 0 < room && room <= 64);
        let mut feed = TraceFeed::new(source(rt, &WORKED));
        is_told(rt, &mut feed, room, events, b"abc");
    }
}

#[test]
fn a_trace_gives_its_events(rt: HostRuntime) {
    assigned_numbers();
    one_trace();
    are_given(&rt, &BY_ROOM);
    let mut feed = TraceFeed::new(source(&rt, b""));
    is_told(&rt, &mut feed, 64, "End", b"");
}

/// Broken traces, and what is told of each: events, and octets.
const BROKEN: [(&[u8], &str, &[u8]); 11] = [
    // a first octet that is none of the four
    (&[0], "Failed", b""),
    (&[1, 5], "Up Failed", b""),
    // a length of 0
    (&[1, 2, 0, 0, 3], "Up Failed", b""),
    // an end within the length
    (&[3, 2], "Down Failed", b""),
    (&[3, 2, 0], "Down Failed", b""),
    // an end before the first of the octets, or behind it
    (&[1, 2, 0, 0x25], "Up Failed", b""),
    (&[1, 2, 0, 0x25, 0xFF], "Up Octets(1) Failed", &[0xFF]),
    (&[1, 2, 1, 2, b'a', b'b'], "Up Octets(2) Failed", b"ab"),
    // an end within the seconds
    (&[4], "Failed", b""),
    (&[4, 0, 0, 0], "Failed", b""),
    (&[4, 0, 0, 0, 9, 4, 0], "Elapsed(9) Failed", b""),
];

/// That each trace gives this, and then fails.
fn break_off(rt: &(impl Abort + AllocGlobal), rows: &[(&[u8], &str, &[u8])]) {
    for row in rows {
        let (octets, events, held) = *row;
        let mut feed = TraceFeed::new(source(rt, octets));
        is_told(rt, &mut feed, 64, events, held);
        is_told(rt, &mut feed, 64, "Failed", b"");
    }
}

#[test]
fn a_broken_trace_gives_its_front_and_then_fails(rt: HostRuntime) {
    break_off(&rt, &BROKEN);
}

/// The read that fails, and what is told of the worked trace: events, and octets. There is a read
/// for each first octet, for what is left of a head, for the octets, and for the end.
const BY_FAILURE: [(u64, &str, &[u8]); 8] = [
    (1, "Failed", b""),
    (2, "Up Failed", b""),
    (3, "Up Failed", b""),
    (4, "Up Failed", b""),
    (5, "Up Octets(3) Failed", b"abc"),
    (6, "Up Octets(3) Failed", b"abc"),
    (7, "Up Octets(3) Elapsed(2) Failed", b"abc"),
    (8, "Up Octets(3) Elapsed(2) Down Failed", b"abc"),
];

/// That the worked trace gives this up to a read that fails, and then fails again.
fn fail_once(rt: &(impl Abort + AllocGlobal), rows: &[(u64, &str, &[u8])]) {
    for row in rows {
        let (call, events, held) = *row;
        let fails = Vec::from_slice(rt.alloc(), &[call]).expect(rt, "memory");
        let octets = Vec::from_slice(rt.alloc(), &WORKED).expect(rt, "memory");
        let mut feed = TraceFeed::new(MemSource::new(octets, fails));
        is_told(rt, &mut feed, 64, events, held);
        is_told(rt, &mut feed, 64, "Failed", b"");
    }
}

#[test]
fn a_source_that_fails_in_mid_stream_ends_the_feed(rt: HostRuntime) {
    fail_once(&rt, &BY_FAILURE);
}

/// A source that gives one octet a read, and tells nothing.
#[derive(Drop)]
struct Drip {
    octets: SureSource,
}

impl Source for Drip {
    ghost left = { λ _. None };

    ghost faults = { λ _. 0 };

    fn read(&mut self, buf: &mut [u8]) -> Result<usize, Failed> {
        self.octets.read(&mut buf[..1])
    }
}

#[test]
fn reads_of_one_octet_give_the_same_events(rt: HostRuntime) {
    let octets = source(&rt, &WORKED);
    let mut feed = TraceFeed::new(Drip { octets });
    let ones = "Up Octets(1) Octets(1) Octets(1) Elapsed(2) Down End";
    is_told(&rt, &mut feed, 64, ones, b"abc");
}

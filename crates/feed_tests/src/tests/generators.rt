//! The generator, and the words that name one.
ghost use Rattle.std.specs.Prelude.{◌<◌, ◌≤◌};

use feed_io::{Feed, FeedEvent, GenFeed, GenSpec, read_gen};
use std::process::Abort;
use urpf_base::Failed;

/// The most octets that one call is asked for.
const BUFFER_OCTETS: usize = 100;

/// The octets of the OPEN and of the KEEPALIVE.
const OPENING_OCTETS: usize = 37 + 19;

const OPEN: [u8; 37] = [
    // marker
    0xFF, 0xFF, 0xFF, 0xFF, 0xFF, 0xFF, 0xFF, 0xFF, 0xFF, 0xFF, 0xFF, 0xFF, 0xFF, 0xFF, 0xFF, 0xFF,
    // length 37, type OPEN
    0x00, 0x25, 0x01,
    // version 4, My Autonomous System 64499, hold time 0, identifier 192.0.2.9
    0x04, 0xFB, 0xF3, 0x00, 0x00, 0xC0, 0x00, 0x02, 0x09,
    // 8 octets of parameters: the AS number 64499 in four octets
    0x08, 0x02, 0x06, 0x41, 0x04, 0x00, 0x00, 0xFB, 0xF3,
];

const KEEPALIVE: [u8; 19] = [
    // marker
    0xFF, 0xFF, 0xFF, 0xFF, 0xFF, 0xFF, 0xFF, 0xFF, 0xFF, 0xFF, 0xFF, 0xFF, 0xFF, 0xFF, 0xFF, 0xFF,
    // length 19, type KEEPALIVE
    0x00, 0x13, 0x04,
];

/// Block 0 of eight prefixes, with every seed.
const FIRST_UPDATE: [u8; 79] = [
    // marker
    0xFF, 0xFF, 0xFF, 0xFF, 0xFF, 0xFF, 0xFF, 0xFF, 0xFF, 0xFF, 0xFF, 0xFF, 0xFF, 0xFF, 0xFF, 0xFF,
    // length 79, type UPDATE
    0x00, 0x4F, 0x02,
    // nothing withdrawn, 24 octets of attributes
    0x00, 0x00, 0x00, 0x18,
    // ORIGIN
    0x40, 0x01, 0x01, 0x00,
    // AS_PATH: 64499 100000
    0x40, 0x02, 0x0A, 0x02, 0x02, 0x00, 0x00, 0xFB, 0xF3, 0x00, 0x01, 0x86, 0xA0,
    // NEXT_HOP
    0x40, 0x03, 0x04, 0xC0, 0x00, 0x02, 0x01,
    // 1.0.0.0/24 to 1.0.7.0/24
    0x18, 0x01, 0x00, 0x00, 0x18, 0x01, 0x00, 0x01, 0x18, 0x01, 0x00, 0x02, 0x18, 0x01, 0x00, 0x03,
    0x18, 0x01, 0x00, 0x04, 0x18, 0x01, 0x00, 0x05, 0x18, 0x01, 0x00, 0x06, 0x18, 0x01, 0x00, 0x07,
];

/// Block 99 of 800 prefixes, with the seed 7.
const LAST_UPDATE: [u8; 79] = [
    // marker
    0xFF, 0xFF, 0xFF, 0xFF, 0xFF, 0xFF, 0xFF, 0xFF, 0xFF, 0xFF, 0xFF, 0xFF, 0xFF, 0xFF, 0xFF, 0xFF,
    // length 79, type UPDATE
    0x00, 0x4F, 0x02,
    // nothing withdrawn, 24 octets of attributes
    0x00, 0x00, 0x00, 0x18,
    // ORIGIN
    0x40, 0x01, 0x01, 0x00,
    // AS_PATH: 64499 100693
    0x40, 0x02, 0x0A, 0x02, 0x02, 0x00, 0x00, 0xFB, 0xF3, 0x00, 0x01, 0x89, 0x55,
    // NEXT_HOP
    0x40, 0x03, 0x04, 0xC0, 0x00, 0x02, 0x01,
    // 1.3.24.0/24 to 1.3.31.0/24
    0x18, 0x01, 0x03, 0x18, 0x18, 0x01, 0x03, 0x19, 0x18, 0x01, 0x03, 0x1A, 0x18, 0x01, 0x03, 0x1B,
    0x18, 0x01, 0x03, 0x1C, 0x18, 0x01, 0x03, 0x1D, 0x18, 0x01, 0x03, 0x1E, 0x18, 0x01, 0x03, 0x1F,
];

/// Block 1 of 10 prefixes, with the seed 65535.
const SHORT_UPDATE: [u8; 55] = [
    // marker
    0xFF, 0xFF, 0xFF, 0xFF, 0xFF, 0xFF, 0xFF, 0xFF, 0xFF, 0xFF, 0xFF, 0xFF, 0xFF, 0xFF, 0xFF, 0xFF,
    // length 55, type UPDATE
    0x00, 0x37, 0x02,
    // nothing withdrawn, 24 octets of attributes
    0x00, 0x00, 0x00, 0x18,
    // ORIGIN
    0x40, 0x01, 0x01, 0x00,
    // AS_PATH: 64499 115535, which is 100000 and what is left of 65535 by 50000
    0x40, 0x02, 0x0A, 0x02, 0x02, 0x00, 0x00, 0xFB, 0xF3, 0x00, 0x01, 0xC3, 0x4F,
    // NEXT_HOP
    0x40, 0x03, 0x04, 0xC0, 0x00, 0x02, 0x01,
    // 1.0.8.0/24 and 1.0.9.0/24
    0x18, 0x01, 0x00, 0x08, 0x18, 0x01, 0x00, 0x09,
];

/// How many events a generator gives through a buffer of this room, the first of which is Up and
/// the others are octets, and all their octets.
fn told(rt: &(impl Abort + AllocGlobal), seed: u32, count: u32, room: usize) -> (u32, Vec<u8>)
    requires count { count ≤ 4000000 }
    requires some { 0 < room }
    requires within { room ≤ 100 }
{
    let mut feed = GenFeed::new(seed, count);
    let mut buf = [0u8; BUFFER_OCTETS];
    let mut octets = Vec::new(rt.alloc());
    for events in 0..10_000u32 {
        match feed.next(&mut buf[..room]) {
            Ok(FeedEvent::End) => return (events, octets),
            Ok(FeedEvent::Octets(len)) => {
                assert!(rt; events > 0);
                octets.extend_from_slice(&buf[..len]).expect(rt, "memory");
            }
            Ok(event) => {
                assert_eq!(rt; event, FeedEvent::Up);
                assert_eq!(rt; events, 0);
            }
            Err(Failed) => assert!(rt; false),
        }
    }
    (10_000, octets)
}

#[test]
fn each_message_comes_in_one_event(rt: HostRuntime) {
    let (events, octets) = told(&rt, 7, 800, 79);
    assert_eq!(rt; events, 103);
    assert_eq!(rt; octets.len(), OPENING_OCTETS + 100 * 79);
    let all = octets.as_slice();
    assert!(rt; all.starts_with(&OPEN));
    assert!(rt; all[37..].starts_with(&KEEPALIVE));
    assert!(rt; all[OPENING_OCTETS..].starts_with(&FIRST_UPDATE));
    assert!(rt; all.ends_with(&LAST_UPDATE));
}

#[test]
fn the_last_block_has_what_is_left(rt: HostRuntime) {
    let (events, octets) = told(&rt, 65_535, 10, 100);
    assert_eq!(rt; events, 5);
    assert_eq!(rt; octets.len(), OPENING_OCTETS + 79 + 55);
    let all = octets.as_slice();
    assert!(rt; all[OPENING_OCTETS..].starts_with(&FIRST_UPDATE));
    assert!(rt; all.ends_with(&SHORT_UPDATE));
    let (events, octets) = told(&rt, 7, 0, 100);
    assert_eq!(rt; events, 3);
    assert_eq!(rt; octets.len(), OPENING_OCTETS);
}

/// How many octets a call may give, and how many events come of 800 prefixes: Up, the OPEN, the
/// KEEPALIVE and 100 UPDATEs, each in as many events as its octets need.
const BY_ROOM: [(usize, u32); 5] = [
    (100, 1 + 1 + 1 + 100),
    (78, 1 + 1 + 1 + 100 * 2),
    (37, 1 + 1 + 1 + 100 * 3),
    (19, 1 + 2 + 1 + 100 * 5),
    (1, 1 + 37 + 19 + 100 * 79),
];

/// That each buffer gets the same octets.
fn are_same(rt: &(impl Abort + AllocGlobal), rows: &[(usize, u32)]) {
    let (_, whole) = told(rt, 7, 800, 79);
    for row in rows {
        let (room, wanted) = *row;
        assert!(rt; 0 < room && room <= BUFFER_OCTETS);
        let (events, octets) = told(rt, 7, 800, room);
        assert_eq!(rt; events, wanted);
        assert_eq!(rt; octets.as_slice(), whole.as_slice());
    }
}

#[test]
fn a_short_buffer_gets_the_same_octets(rt: HostRuntime) {
    are_same(&rt, &BY_ROOM);
}

/// Words, and the seed and the count that each spells.
const WORDS: [(&[u8], Option<(u32, u32)>); 15] = [
    (b"gen:0:1", Some((0, 1))),
    (b"gen:7:800", Some((7, 800))),
    (b"gen:65535:4000000", Some((65_535, 4_000_000))),
    // out of range
    (b"gen:65536:1", None),
    (b"gen:1:0", None),
    (b"gen:1:4000001", None),
    // a leading zero
    (b"gen:01:1", None),
    (b"gen:1:01", None),
    // a part that is missing, or one more
    (b"gen:1", None),
    (b"gen::1", None),
    (b"gen:1:", None),
    (b"gen:1:1:1", None),
    // other words
    (b"Gen:1:1", None),
    (b" gen:1:1", None),
    (b"", None),
];

/// That each word spells this.
fn are_read(rt: &impl Abort, rows: &[(&[u8], Option<(u32, u32)>)]) {
    for row in rows {
        let (word, wanted) = *row;
        match (read_gen(word), wanted) {
            (Some(spec), Some((seed, count))) => assert_eq!(rt; spec, GenSpec { seed, count }),
            (None, None) => {}
            (read, wanted) => assert!(rt; false, "{word:?} {read:?} {wanted:?}"),
        }
    }
}

#[test]
fn a_word_spells_a_generator_or_is_refused(rt: HostRuntime) {
    are_read(&rt, &WORDS);
}

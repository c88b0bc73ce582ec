//! Recordings that are off the format, and sources that fail.
use super::recorded::{NARROW, PEER, Record, WIDE, is_told, recording};
use super::recordings::{ANNOUNCED, MADE_WIDE, NOTIFIED, TABLE_DUMP};
use feed_io::{MemSource, SureSource};
use message_octets::{ANNOUNCE, KEEPALIVE, NOTIFICATION};
use mrt_feed::MrtFeed;
use std::process::Abort;
use urpf_base::Addr;

/// The header of the NOTIFICATION.
const HEADER: &[u8] = &[
    0xFF, 0xFF, 0xFF, 0xFF, 0xFF, 0xFF, 0xFF, 0xFF, 0xFF, 0xFF, 0xFF, 0xFF, 0xFF, 0xFF, 0xFF, 0xFF,
    0x00, 0x15, 0x03,
];

/// How many octets of a recorded NOTIFICATION are there, and what is told: events, and octets.
const BY_END: [(usize, &str, &[&[u8]]); 9] = [
    (0, "End", &[]),
    // within the header, before the family, within the addresses, and within the header of the message
    (1, "Failed", &[]),
    (12, "Failed", &[]),
    (23, "Failed", &[]),
    (31, "Failed", &[]),
    (50, "Failed", &[]),
    // behind it
    (
        51,
        "Up Octets(62) Octets(19) Failed",
        &[MADE_WIDE, &KEEPALIVE, HEADER],
    ),
    (
        52,
        "Up Octets(62) Octets(19) Octets(1) Failed",
        &[MADE_WIDE, &KEEPALIVE, HEADER, &[6]],
    ),
    (
        53,
        "Up Octets(62) Octets(19) Octets(2) End",
        &[MADE_WIDE, &KEEPALIVE, &NOTIFICATION],
    ),
];

/// That so much of the recorded NOTIFICATION gives this.
fn end_early(rt: &(impl Abort + AllocGlobal), rows: &[(usize, &str, &[&[u8]])]) {
    for row in rows {
        let (count, events, pieces) = *row;
        let mut octets = recording(rt, &[NOTIFIED]);
        octets.truncate(count);
        let mut feed = MrtFeed::new(SureSource::new(octets), PEER);
        is_told(rt, &mut feed, 64, events, pieces);
    }
}

#[test]
fn a_message_that_the_end_cuts_is_told_before_the_failure(rt: HostRuntime) {
    end_early(&rt, &BY_END);
}

/// A record of another type that says more octets than there are.
const CUT: Record = Record {
    kind: 13,
    subkind: 1,
    count: 9,
    front: &[0xFF],
    back: &[],
};

/// A message of a family that is none of the two.
const OTHER_FAMILY: Record = Record {
    kind: 16,
    subkind: 1,
    count: 16 + 47,
    front: &[
        0xFB, 0xF5, 0xFB, 0xF0, 0x00, 0x00, 0x00, 0x03, 0xC0, 0x00, 0x02, 0x01, 0xC0, 0x00, 0x02,
        0x02,
    ],
    back: &ANNOUNCE,
};

/// A state change of family 0, as FRR writes one at its start.
const NO_FAMILY: Record = Record {
    kind: 16,
    subkind: 5,
    count: 12 + 4,
    front: &[
        0x00, 0x00, 0xFB, 0xF5, 0x00, 0x00, 0xFB, 0xF0, 0x00, 0x00, 0x00, 0x00,
    ],
    back: &[0, 6, 0, 1],
};

/// A message of 18 octets, and others behind it.
const SHORT_MESSAGE: Record = Record {
    kind: 16,
    subkind: 4,
    count: 20 + 18,
    front: WIDE,
    back: &ANNOUNCE,
};

/// State changes of one octet less and one more than four.
const SHORT_CHANGE: Record = Record {
    kind: 16,
    subkind: 0,
    count: 16 + 3,
    front: NARROW,
    back: &[0, 6, 0, 1],
};

const LONG_CHANGE: Record = Record {
    kind: 16,
    subkind: 0,
    count: 16 + 5,
    front: NARROW,
    back: &[0, 6, 0, 1, 0],
};

/// Records behind a NOTIFICATION, the last of which is off the format also for other peers.
const OFF: [&[Record]; 6] = [
    &[NOTIFIED, CUT],
    &[NOTIFIED, TABLE_DUMP, OTHER_FAMILY],
    &[NOTIFIED, NO_FAMILY, ANNOUNCED],
    &[NOTIFIED, SHORT_MESSAGE],
    &[NOTIFIED, SHORT_CHANGE, ANNOUNCED],
    &[NOTIFIED, LONG_CHANGE, ANNOUNCED],
];

/// That each gives the NOTIFICATION, and then fails and goes on failing; and of another peer it
/// gives nothing and fails.
fn break_off(rt: &(impl Abort + AllocGlobal), rows: &[&[Record]]) {
    for row in rows {
        let mut feed = MrtFeed::new(SureSource::new(recording(rt, row)), PEER);
        let events = "Up Octets(62) Octets(19) Octets(2) Failed";
        is_told(
            rt,
            &mut feed,
            64,
            events,
            &[MADE_WIDE, &KEEPALIVE, &NOTIFICATION],
        );
        is_told(rt, &mut feed, 64, "Failed", &[]);
        let other = Addr::V4(0xC000_0209);
        let mut feed = MrtFeed::new(SureSource::new(recording(rt, row)), other);
        is_told(rt, &mut feed, 64, "Failed", &[]);
    }
}

#[test]
fn a_record_off_the_format_is_a_failure_also_of_another_peer(rt: HostRuntime) {
    break_off(&rt, &OFF);
}

/// The read that fails, and what is told: events, and octets. There is a read for the other record's
/// header and octets, three for the head of the NOTIFICATION, one for its octets, and one for the end.
const BY_FAILURE: [(u64, &str, &[&[u8]]); 7] = [
    (1, "Failed", &[]),
    (2, "Failed", &[]),
    (3, "Failed", &[]),
    (4, "Failed", &[]),
    (5, "Failed", &[]),
    (
        6,
        "Up Octets(62) Octets(19) Failed",
        &[MADE_WIDE, &KEEPALIVE, HEADER],
    ),
    (
        7,
        "Up Octets(62) Octets(19) Octets(2) Failed",
        &[MADE_WIDE, &KEEPALIVE, &NOTIFICATION],
    ),
];

/// That the feed gives this up to a read that fails, and then fails again.
fn fail_once(rt: &(impl Abort + AllocGlobal), rows: &[(u64, &str, &[&[u8]])]) {
    for row in rows {
        let (call, events, pieces) = *row;
        let fails = Vec::from_slice(rt.alloc(), &[call]).expect(rt, "memory");
        let octets = recording(rt, &[TABLE_DUMP, NOTIFIED]);
        let mut feed = MrtFeed::new(MemSource::new(octets, fails), PEER);
        is_told(rt, &mut feed, 64, events, pieces);
        is_told(rt, &mut feed, 64, "Failed", &[]);
    }
}

#[test]
fn a_source_that_fails_in_mid_stream_ends_the_feed(rt: HostRuntime) {
    fail_once(&rt, &BY_FAILURE);
}

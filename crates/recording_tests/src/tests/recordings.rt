//! Recordings of one peer: which records tell something, and what is told.
ghost use Rattle.std.specs.Prelude.{◌<◌, None, length};

use super::recorded::{NARROW, PEER, Record, WIDE, is_told, recording};
use feed_io::SureSource;
use message_octets::{ANNOUNCE, KEEPALIVE, NOTIFICATION, OPEN};
use mrt_feed::{MrtFeed, assigned_numbers};
use std::process::Abort;
use urpf_base::{Addr, Failed, Source};

/// The OPEN that is made of a record with AS numbers of four octets.
pub const MADE_WIDE: &[u8] = &[
    // marker
    0xFF, 0xFF, 0xFF, 0xFF, 0xFF, 0xFF, 0xFF, 0xFF, 0xFF, 0xFF, 0xFF, 0xFF, 0xFF, 0xFF, 0xFF, 0xFF,
    // length 43, type OPEN
    0x00, 0x2B, 0x01,
    // version 4, My Autonomous System 64501, hold time 0, identifier 0.0.0.1
    0x04, 0xFB, 0xF5, 0x00, 0x00, 0x00, 0x00, 0x00, 0x01,
    // 14 octets of parameters: IPv6 unicast, and the AS number 64501 in four octets
    0x0E, 0x02, 0x0C, 0x01, 0x04, 0x00, 0x02, 0x00, 0x01, 0x41, 0x04, 0x00, 0x00, 0xFB, 0xF5,
];

/// The OPEN that is made of a record with AS numbers of two octets.
const MADE_NARROW: &[u8] = &[
    // marker
    0xFF, 0xFF, 0xFF, 0xFF, 0xFF, 0xFF, 0xFF, 0xFF, 0xFF, 0xFF, 0xFF, 0xFF, 0xFF, 0xFF, 0xFF, 0xFF,
    // length 37, type OPEN
    0x00, 0x25, 0x01,
    // version 4, My Autonomous System 64501, hold time 0, identifier 0.0.0.1
    0x04, 0xFB, 0xF5, 0x00, 0x00, 0x00, 0x00, 0x00, 0x01,
    // 8 octets of parameters: IPv6 unicast
    0x08, 0x02, 0x06, 0x01, 0x04, 0x00, 0x02, 0x00, 0x01,
];

/// The OPEN of the peer 4200000502, whose AS number has no two octets.
const MADE_LARGE: &[u8] = &[
    // marker
    0xFF, 0xFF, 0xFF, 0xFF, 0xFF, 0xFF, 0xFF, 0xFF, 0xFF, 0xFF, 0xFF, 0xFF, 0xFF, 0xFF, 0xFF, 0xFF,
    // length 43, type OPEN
    0x00, 0x2B, 0x01,
    // version 4, AS_TRANS, hold time 0, identifier 0.0.0.1
    0x04, 0x5B, 0xA0, 0x00, 0x00, 0x00, 0x00, 0x00, 0x01,
    // 14 octets of parameters: IPv6 unicast, and the AS number in four octets
    0x0E, 0x02, 0x0C, 0x01, 0x04, 0x00, 0x02, 0x00, 0x01, 0x41, 0x04, 0xFA, 0x56, 0xEB, 0xF6,
];

/// Peer 4200000502 and local AS 64496, interface 0, IPv6, 2001:db8::1 and 2001:db8::2.
const LARGE_OVER_IPV6: &[u8] = &[
    0xFA, 0x56, 0xEB, 0xF6, 0x00, 0x00, 0xFB, 0xF0, 0x00, 0x00, 0x00, 0x02, 0x20, 0x01, 0x0D, 0xB8,
    0x00, 0x00, 0x00, 0x00, 0x00, 0x00, 0x00, 0x00, 0x00, 0x00, 0x00, 0x01, 0x20, 0x01, 0x0D, 0xB8,
    0x00, 0x00, 0x00, 0x00, 0x00, 0x00, 0x00, 0x00, 0x00, 0x00, 0x00, 0x02,
];

/// The same with 999,999 microseconds in front of the 20 octets of the session over IPv4.
const EXTENDED: &[u8] = &[
    0x00, 0x0F, 0x42, 0x3F, 0x00, 0x00, 0xFB, 0xF5, 0x00, 0x00, 0xFB, 0xF0, 0x00, 0x00, 0x00, 0x01,
    0xC0, 0x00, 0x02, 0x01, 0xC0, 0x00, 0x02, 0x02,
];

/// From Established to Idle, and from OpenConfirm to Established.
const TO_IDLE: &[u8] = &[0, 6, 0, 1];

const TO_ESTABLISHED: &[u8] = &[0, 5, 0, 6];

/// A record of an UPDATE, by AS numbers of four octets.
pub const ANNOUNCED: Record = Record {
    kind: 16,
    subkind: 4,
    count: 20 + 47,
    front: WIDE,
    back: &ANNOUNCE,
};

/// The same by AS numbers of two octets.
const ANNOUNCED_NARROW: Record = Record {
    kind: 16,
    subkind: 1,
    count: 16 + 47,
    front: NARROW,
    back: &ANNOUNCE,
};

/// The same with microseconds.
const ANNOUNCED_EXTENDED: Record = Record {
    kind: 17,
    subkind: 4,
    count: 24 + 47,
    front: EXTENDED,
    back: &ANNOUNCE,
};

/// The same of the peer 4200000502 over IPv6.
const ANNOUNCED_LARGE: Record = Record {
    kind: 16,
    subkind: 4,
    count: 44 + 47,
    front: LARGE_OVER_IPV6,
    back: &ANNOUNCE,
};

/// A message that the router itself sent, with AS numbers of four octets (RFC 6396, section 4.4.6).
const SENT: Record = Record {
    kind: 16,
    subkind: 7,
    count: 20 + 47,
    front: WIDE,
    back: &ANNOUNCE,
};

/// A record of another type (RFC 6396, section 4.3).
pub const TABLE_DUMP: Record = Record {
    kind: 13,
    subkind: 1,
    count: 3,
    front: &[0xFF, 0xFF],
    back: &[0x00],
};

const OPENED: Record = Record {
    kind: 16,
    subkind: 1,
    count: 16 + 37,
    front: NARROW,
    back: &OPEN,
};

const KEPT: Record = Record {
    kind: 16,
    subkind: 4,
    count: 20 + 19,
    front: WIDE,
    back: &KEEPALIVE,
};

/// A NOTIFICATION of the peer.
pub const NOTIFIED: Record = Record {
    kind: 16,
    subkind: 4,
    count: 20 + 21,
    front: WIDE,
    back: &NOTIFICATION,
};

const LOST: Record = Record {
    kind: 16,
    subkind: 5,
    count: 20 + 4,
    front: WIDE,
    back: TO_IDLE,
};

const LOST_NARROW: Record = Record {
    kind: 16,
    subkind: 0,
    count: 16 + 4,
    front: NARROW,
    back: TO_IDLE,
};

const MADE: Record = Record {
    kind: 16,
    subkind: 5,
    count: 20 + 4,
    front: WIDE,
    back: TO_ESTABLISHED,
};

/// Records, a peer, the events that are told of its session, and their octets.
type Row = (
    &'static [Record],
    Addr,
    &'static str,
    &'static [&'static [u8]],
);

const ROWS: [Row; 12] = [
    // nothing
    (&[], PEER, "End", &[]),
    // an UPDATE, of another peer too
    (
        &[ANNOUNCED],
        PEER,
        "Up Octets(62) Octets(19) Octets(28) End",
        &[MADE_WIDE, &KEEPALIVE, &ANNOUNCE],
    ),
    (&[ANNOUNCED], Addr::V4(0xC000_0209), "End", &[]),
    // the local address is no peer
    (&[ANNOUNCED], Addr::V4(0xC000_0202), "End", &[]),
    // the session ends
    (
        &[ANNOUNCED, LOST],
        PEER,
        "Up Octets(62) Octets(19) Octets(28) Down End",
        &[MADE_WIDE, &KEEPALIVE, &ANNOUNCE],
    ),
    // and begins again; what tells nothing stands in between
    (
        &[
            TABLE_DUMP,
            LOST,
            OPENED,
            KEPT,
            MADE,
            NOTIFIED,
            LOST_NARROW,
            LOST,
            SENT,
            NOTIFIED,
            MADE,
            KEPT,
        ],
        PEER,
        "Up Octets(62) Octets(19) Octets(2) Down Up Octets(62) Octets(19) Octets(2) End",
        &[
            MADE_WIDE,
            &KEEPALIVE,
            &NOTIFICATION,
            MADE_WIDE,
            &KEEPALIVE,
            &NOTIFICATION,
        ],
    ),
    // microseconds
    (
        &[ANNOUNCED_EXTENDED],
        PEER,
        "Up Octets(62) Octets(19) Octets(28) End",
        &[MADE_WIDE, &KEEPALIVE, &ANNOUNCE],
    ),
    // AS numbers of two octets
    (
        &[ANNOUNCED_NARROW, LOST_NARROW],
        PEER,
        "Up Octets(56) Octets(19) Octets(28) Down End",
        &[MADE_NARROW, &KEEPALIVE, &ANNOUNCE],
    ),
    // and four behind two
    (
        &[ANNOUNCED_NARROW, NOTIFIED, NOTIFIED],
        PEER,
        "Up Octets(56) Octets(19) Octets(28) Down Up Octets(62) Octets(19) Octets(2) Octets(19) Octets(2) End",
        &[
            MADE_NARROW,
            &KEEPALIVE,
            &ANNOUNCE,
            MADE_WIDE,
            &KEEPALIVE,
            &NOTIFICATION,
            &NOTIFICATION,
        ],
    ),
    // a peer over IPv6 with a large AS number
    (
        &[ANNOUNCED, ANNOUNCED_LARGE, ANNOUNCED],
        Addr::V6(0x2001_0DB8_0000_0000_0000_0000_0000_0001),
        "Up Octets(62) Octets(19) Octets(28) End",
        &[MADE_LARGE, &KEEPALIVE, &ANNOUNCE],
    ),
    // records of peers alone
    (&[OPENED, KEPT, MADE, LOST], PEER, "End", &[]),
    (&[TABLE_DUMP, SENT], PEER, "End", &[]),
];

/// That each recording gives this.
fn are_told(rt: &(impl Abort + AllocGlobal), rows: &[Row]) {
    for row in rows {
        let (records, peer, events, pieces) = *row;
        let mut feed = MrtFeed::new(SureSource::new(recording(rt, records)), peer);
        is_told(rt, &mut feed, 64, events, pieces);
    }
}

#[test]
fn a_recording_gives_the_events_of_one_peer(rt: HostRuntime) {
    assigned_numbers();
    are_told(&rt, &ROWS);
}

/// How many octets a call may give, and the events of a recorded NOTIFICATION.
const BY_ROOM: [(usize, &str); 3] = [
    (62, "Up Octets(62) Octets(19) Octets(2) End"),
    (
        30,
        "Up Octets(30) Octets(30) Octets(2) Octets(19) Octets(2) End",
    ),
    (
        18,
        "Up Octets(18) Octets(18) Octets(18) Octets(8) Octets(18) Octets(1) Octets(2) End",
    ),
];

/// That a recorded NOTIFICATION gives these events.
fn are_cut(rt: &(impl Abort + AllocGlobal), rows: &[(usize, &str)]) {
    for row in rows {
        let (room, events) = *row;
        assert!(rt; 0 < room && room <= 64);
        let mut feed = MrtFeed::new(SureSource::new(recording(rt, &[NOTIFIED])), PEER);
        is_told(
            rt,
            &mut feed,
            room,
            events,
            &[MADE_WIDE, &KEEPALIVE, &NOTIFICATION],
        );
    }
}

#[test]
fn octets_come_in_parts_where_the_buffer_is_short(rt: HostRuntime) {
    are_cut(&rt, &BY_ROOM);
}

/// A source that gives one octet a read, and tells nothing.
#[derive(Drop)]
struct Drip {
    octets: SureSource,
}

impl Source for Drip {
    ghost left = { λ _. None };

    ghost faults = { λ _. 0 };

    fn read(&mut self, buf: &mut [u8]) -> Result<usize, Failed> {
        self.octets.read(&mut buf[..1])
    }
}

#[test]
fn reads_of_one_octet_give_the_same_events(rt: HostRuntime) {
    let octets = SureSource::new(recording(&rt, &[TABLE_DUMP, NOTIFIED]));
    let mut feed = MrtFeed::new(Drip { octets }, PEER);
    let ones = "Up Octets(62) Octets(19) Octets(1) Octets(1) End";
    is_told(
        &rt,
        &mut feed,
        64,
        ones,
        &[MADE_WIDE, &KEEPALIVE, &NOTIFICATION],
    );
}

//! Captures that are broken, or cannot be read on.
ghost use Rattle.std.specs.Prelude.{◌<◌, None, length};

use super::made::{
    BIG, ETHERNET, LITTLE, OF_20, OF_34, PACKET, RECORD, append, capture, is_given, octets_of,
    source,
};
use feed_io::{MemSource, SureSource};
use pcap_packets::PcapPackets;
use std::process::Abort;
use urpf_base::{Failed, Source};

/// A name, the header of the file, what is wrong behind it, and what is given before it fails.
type Row = (&'static str, &'static str, &'static str, &'static str);

const BROKEN: [Row; 13] = [
    ("an empty file", "", "", ""),
    (
        "an end within the header",
        "D4C3B2A1 0200 0400 00000000 00000000 00000400 010000",
        "",
        "",
    ),
    (
        "another magic",
        "D4C3B2A2 0200 0400 00000000 00000000 00000400 01000000",
        "",
        "",
    ),
    (
        "pcapng",
        "0A0D0D0A 1C000000 4D3C2B1A 01000000 FFFFFFFF FFFFFFFF 1C000000",
        "",
        "",
    ),
    (
        "a magic of which two octets are reversed",
        "C3D4A1B2 0200 0400 00000000 00000000 00000400 01000000",
        "",
        "",
    ),
    (
        "Linux cooked frames",
        "D4C3B2A1 0200 0400 00000000 00000000 00000400 71000000",
        "",
        "",
    ),
    (
        "a link in the other order",
        "D4C3B2A1 0200 0400 00000000 00000000 00000400 00000001",
        "",
        "",
    ),
    ("an end within the header of a record", LITTLE, "00", ""),
    (
        "an end in its last octet",
        LITTLE,
        "00000000 00000000 22000000 220000",
        "",
    ),
    ("an end before the frame", LITTLE, OF_34, ""),
    (
        "an end in its last octet",
        LITTLE,
        "00000000 00000000 22000000 22000000 \
         000000000000 000000000000 0800 45000014 00000000 40110000 C6336409 CB0071",
        "",
    ),
    (
        "a record behind the first one that says it is too long",
        BIG,
        "00000000 00000000 00000014 00000014 45000014 00000000 40110000 C6336409 CB007101 \
         00000000 00000000 00040001 00000014 45000014 00000000 40110000 C6336409 CB007101",
        RECORD,
    ),
    (
        "a length in the other order",
        BIG,
        "00000000 00000000 00000014 00000014 45000014 00000000 40110000 C6336409 CB007101 \
         00000000 00000000 14000000 14000000 45000014 00000000 40110000 C6336409 CB007101",
        RECORD,
    ),
];

/// That each gives the records before the break, and then fails.
fn break_off(rt: &(impl Abort + AllocGlobal), rows: &[Row]) {
    for row in rows {
        let (name, header, behind, records) = *row;
        let mut packets = capture(rt, &[header, behind]);
        is_given(rt, name, &mut packets, &[records], true);
    }
}

#[test]
fn a_broken_capture_gives_its_front_and_then_fails(rt: HostRuntime) {
    break_off(&rt, &BROKEN);
}

/// The octets of a capture of a frame with this header of a record and so many octets 00, and the
/// worked one.
fn long(rt: &(impl Abort + AllocGlobal), head: &str, count: usize) -> Vec<u8> {
    let mut octets = octets_of(rt, &[BIG, head]);
    for _ in 0..count {
        octets.push(0).expect(rt, "memory");
    }
    append(rt, &mut octets, OF_20);
    append(rt, &mut octets, PACKET);
    octets
}

/// What is kept of a frame of octets 00.
const ZEROS: &str = "01 0000 003C 00000000 00000000 00000000 00000000 00000000 00000000 00000000 \
    00000000 00000000 00000000 00000000 00000000 00000000 00000000 00000000";

#[test]
fn a_frame_has_at_most_262_144_octets(rt: HostRuntime) {
    let octets = long(&rt, "00000000 00000000 00040000 00040000", 262_144);
    let mut packets = PcapPackets::new(source(&rt, octets, 0), 0);
    is_given(&rt, "the longest", &mut packets, &[ZEROS, RECORD], false);
    let octets = long(&rt, "00000000 00000000 00040001 00040001", 262_145);
    let mut packets = PcapPackets::new(source(&rt, octets, 0), 0);
    is_given(&rt, "one octet more", &mut packets, &[], true);
}

/// The read that fails, and what is given before: there is a read for each header, for the frame, and
/// for the end.
const BY_FAILURE: [(u64, &str); 4] = [(1, ""), (2, ""), (3, ""), (4, RECORD)];

/// The worked capture, over a source of which this read fails.
fn failing(rt: &(impl Abort + AllocGlobal), call: u64) -> PcapPackets<MemSource> {
    let octets = octets_of(rt, &[LITTLE, OF_34, ETHERNET, PACKET]);
    PcapPackets::new(source(rt, octets, call), 0)
}

/// That the worked capture gives this up to a read that fails, and then fails again.
fn fail_once(rt: &(impl Abort + AllocGlobal), rows: &[(u64, &str)]) {
    for row in rows {
        let (call, records) = *row;
        let mut packets = failing(rt, call);
        is_given(rt, "a read fails", &mut packets, &[records], true);
    }
}

#[test]
fn a_source_that_fails_in_mid_stream_ends_the_capture(rt: HostRuntime) {
    fail_once(&rt, &BY_FAILURE);
    is_given(&rt, "no read fails", &mut failing(&rt, 0), &[RECORD], false);
}

/// A source that gives one octet a read, and tells nothing.
#[derive(Drop)]
struct Drip {
    octets: SureSource,
}

impl Source for Drip {
    ghost left = { λ _. None };

    ghost faults = { λ _. 0 };

    fn read(&mut self, buf: &mut [u8]) -> Result<usize, Failed> {
        self.octets.read(&mut buf[..1])
    }
}

#[test]
fn reads_of_one_octet_give_the_same_records(rt: HostRuntime) {
    let octets = octets_of(&rt, &[LITTLE, OF_34, ETHERNET, PACKET]);
    let octets = SureSource::new(octets);
    let mut packets = PcapPackets::new(Drip { octets }, 0);
    is_given(&rt, "octet by octet", &mut packets, &[RECORD], false);
}

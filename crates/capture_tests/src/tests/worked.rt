//! Worked captures, and the records that they give.
use super::made::{BIG, ETHERNET, LITTLE, OF_20, OF_34, PACKET, RECORD, capture, is_given};
use pcap_packets::{assigned_numbers, one_capture, one_packet_each};
use std::process::Abort;

/// A name, the header of the file, the header of a record, its frame, and what is given.
type Row = (
    &'static str,
    &'static str,
    &'static str,
    &'static str,
    &'static str,
);

/// The header of a file of packets, the least significant octets first.
const LITTLE_RAW: &str = "D4C3B2A1 0200 0400 00000000 00000000 00000400 65000000";

/// The same of Ethernet frames, with times in nanoseconds.
const LITTLE_NANOSECONDS: &str = "4D3CB2A1 0200 0400 00000000 00000000 00000400 01000000";

/// The header of a file of Ethernet frames, the most significant octets first, of another version,
/// with numbers in both fields that are not in use, and with times in nanoseconds.
const BIG_NANOSECONDS: &str = "A1B23C4D 0009 0009 11111111 22222222 00000000 00000001";

/// Frames with one packet each.
const WITH_A_PACKET: [Row; 6] = [
    (
        "Ethernet",
        LITTLE,
        OF_34,
        "000000000000 000000000000 0800 45000014 00000000 40110000 C6336409 CB007101",
        RECORD,
    ),
    ("a packet", BIG, OF_20, PACKET, RECORD),
    (
        "a packet, least significant octets first",
        LITTLE_RAW,
        "00000000 00000000 14000000 14000000",
        PACKET,
        RECORD,
    ),
    (
        "a VLAN tag",
        LITTLE,
        "00000000 00000000 26000000 26000000",
        "000000000000 000000000000 8100 0005 0800 45000014 00000000 40110000 C6336409 CB007101",
        RECORD,
    ),
    (
        "nanoseconds, and a frame that was longer on its link",
        LITTLE_NANOSECONDS,
        "01020304 05060708 22000000 EA050000",
        "112233445566 778899AABBCC 0800 45000014 00000000 40110000 C6336409 CB007101",
        RECORD,
    ),
    (
        "IPv6, cut off, most significant octets first",
        BIG_NANOSECONDS,
        "01020304 05060708 00000012 00000040",
        "112233445566 778899AABBCC 86DD 60000000",
        "01 0000 0004 60000000",
    ),
];

/// Frames of few octets, of other types, and with more than one tag.
const OTHERS: [Row; 9] = [
    (
        "ARP",
        LITTLE,
        OF_34,
        "000000000000 000000000000 0806 45000014 00000000 40110000 C6336409 CB007101",
        "",
    ),
    (
        "no frame",
        LITTLE,
        "00000000 00000000 00000000 22000000",
        "",
        "",
    ),
    (
        "13 octets",
        LITTLE,
        "00000000 00000000 0D000000 0D000000",
        "000000000000 000000000000 08",
        "",
    ),
    (
        "14 octets",
        LITTLE,
        "00000000 00000000 0E000000 0E000000",
        "000000000000 000000000000 0800",
        "01 0000 0000",
    ),
    (
        "17 octets and a tag",
        LITTLE,
        "00000000 00000000 11000000 11000000",
        "000000000000 000000000000 8100 0005 08",
        "",
    ),
    (
        "ARP behind a tag",
        LITTLE,
        "00000000 00000000 14000000 14000000",
        "000000000000 000000000000 8100 0005 0806 4500",
        "",
    ),
    (
        "two tags",
        LITTLE,
        "00000000 00000000 18000000 18000000",
        "000000000000 000000000000 8100 0005 8100 0006 0800 4500",
        "",
    ),
    (
        "a service tag",
        LITTLE,
        "00000000 00000000 14000000 14000000",
        "000000000000 000000000000 88A8 0005 0800 4500",
        "",
    ),
    (
        "no octet of a packet",
        BIG,
        "00000000 00000000 00000000 00000014",
        "",
        "01 0000 0000",
    ),
];

/// That the capture of each row gives this, and gives it twice where its record stands there twice.
fn are_given(rt: &(impl Abort + AllocGlobal), rows: &[Row]) {
    for row in rows {
        let (name, header, head, frame, record) = *row;
        let mut packets = capture(rt, &[header, head, frame]);
        is_given(rt, name, &mut packets, &[record], false);
        let mut packets = capture(rt, &[header, head, frame, head, frame]);
        is_given(rt, name, &mut packets, &[record, record], false);
    }
}

#[test]
fn a_frame_gives_the_record_of_its_packet(rt: HostRuntime) {
    assigned_numbers();
    one_capture();
    one_packet_each();
    are_given(&rt, &WITH_A_PACKET);
}

#[test]
fn other_frames_give_nothing(rt: HostRuntime) {
    are_given(&rt, &OTHERS);
    let mut packets = capture(&rt, &[LITTLE]);
    is_given(&rt, "no record", &mut packets, &[], false);
}

/// Sixty octets of a packet.
const SIXTY: &str = "45000014 00000000 40110000 C6336409 CB007101 00010203 04050607 08090A0B \
    0C0D0E0F 10111213 14151617 18191A1B 1C1D1E1F 20212223 24252627";

#[test]
fn sixty_octets_of_a_packet_are_kept(rt: HostRuntime) {
    let head = "00000000 00000000 4B000000 4B000000";
    let frame = [LITTLE, head, ETHERNET, SIXTY, "FF", OF_34, ETHERNET, PACKET];
    let mut packets = capture(&rt, &frame);
    let record = ["01 0000 003C", SIXTY, RECORD];
    is_given(&rt, "one octet more", &mut packets, &record, false);
}

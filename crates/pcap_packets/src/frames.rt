//! Where the packet in a frame begins, and the record of it.
//!
//! | Octets | Ethernet frame (IEEE 802.3, section 3.1.1) | with a VLAN tag (IEEE 802.1Q, section 9) |
//! |---|---|---|
//! | 0 to 11 | destination, source | destination, source |
//! | 12 and 13 | type: 0800 or 86DD | 8100 |
//! | 14 and 15 | packet | tag |
//! | 16 and 17 | | type: 0800 or 86DD |
//! | from 18 on | | packet |
ghost use Rattle.std.specs.Prelude.{◌≡◌, length, take, min};
ghost use Rattle.pcap_packets.specs.Frames as spec;

use crate::formats::Link;
use byteorder::{BigEndian, ByteOrder};
use feed_io::{FewOctets, PACKET};

/// The octets of an Ethernet frame before its packet (IEEE 802.3, section 3.1.1).
const ETHERNET_HEADER: usize = 14;

/// The octets before the packet where a VLAN tag stands there (IEEE 802.1Q, section 9).
const TAGGED_HEADER: usize = 18;

/// The type of IPv4 packets (RFC 894).
pub const IPV4: u16 = 0x0800;

/// The type of IPv6 packets (RFC 2464, section 3).
pub const IPV6: u16 = 0x86DD;

/// The type of a VLAN tag (IEEE 802.1Q, section 9.5).
pub const VLAN_TAG: u16 = 0x8100;

/// The most octets of a packet that its record has.
const PACKET_OCTETS: usize = 60;

/// The octets of a record: for a frame with a packet 01, the number of the interface and the length,
/// both in two octets, and the first 60 octets of the packet, and for another frame none.
pub fn frame_record(link: Link, iface: u16, frame: &[u8]) -> FewOctets
    ensures { result ≡ spec.frame_record link iface frame.now }
{
    match packet_offset(link, frame) {
        None => FewOctets::new(),
        Some(offset) => packet_record(iface, &frame[offset..]),
    }
}

/// The octets of the record of a packet.
fn packet_record(iface: u16, packet: &[u8]) -> FewOctets
    ensures { result ≡ spec.packet_record iface packet.now }
{
    let octets = first_octets(packet);
    let [iface_high, iface_low] = iface.to_be_bytes();
    let [high, low] = (octets.len() as u16).to_be_bytes();
    let mut record = FewOctets::new();
    record.append(&[PACKET, iface_high, iface_low, high, low]);
    record.append(octets);
    record
}

/// The first 60 octets of a packet, or all of a shorter one.
#[tactic(auto, using(crate::proofs::FrontOctets::take_least))]
fn first_octets(packet: &[u8]) -> &[u8]
    ensures octets { result.now ≡ take 60 packet.now }
    ensures count { length result.now ≡ min (length packet.now) 60 }
{
    &packet[..packet.len().min(PACKET_OCTETS)]
}

/// How many octets stand before the packet. None where the frame holds none.
fn packet_offset(link: Link, frame: &[u8]) -> Option<usize>
    ensures offset { result ≡ spec.packet_offset link frame.now }
{
    match link {
        Link::Ethernet => ethernet_offset(frame),
        Link::Raw => Some(0),
    }
}

/// How many octets of an Ethernet frame stand before its packet.
fn ethernet_offset(frame: &[u8]) -> Option<usize>
    ensures offset { result ≡ spec.ethernet_offset frame.now }
{
    if frame.len() < ETHERNET_HEADER {
        return None;
    }
    let kind = BigEndian::read_u16(&frame[12..]);
    if is_ip(kind) {
        return Some(ETHERNET_HEADER);
    }
    if kind == VLAN_TAG {
        return tagged_offset(frame);
    }
    None
}

/// How many octets of a frame with a VLAN tag stand before its packet.
fn tagged_offset(frame: &[u8]) -> Option<usize>
    ensures offset { result ≡ spec.tagged_offset frame.now }
{
    if frame.len() < TAGGED_HEADER {
        return None;
    }
    if is_ip(BigEndian::read_u16(&frame[16..])) {
        return Some(TAGGED_HEADER);
    }
    None
}

/// Whether packets of IPv4 or IPv6 have this type.
fn is_ip(kind: u16) -> bool
    ensures { result ≡ spec.is_ip kind }
{
    kind == IPV4 || kind == IPV6
}

//! The captures that tests are made of, and what they give.
ghost use Rattle.std.specs.Prelude.{◌≡◌};

use feed_io::{MemSource, PacketSource};
use pcap_packets::PcapPackets;
use std::process::Abort;
use urpf_base::{Failed, Source};

/// A header of IPv4 (RFC 791, section 3.1), from 198.51.100.9 to 203.0.113.1, with nothing behind it.
pub const PACKET: &str = "45000014 00000000 40110000 C6336409 CB007101";

/// Its packet record on interface 0.
pub const RECORD: &str = "01 0000 0014 45000014 00000000 40110000 C6336409 CB007101";

/// The header of a capture of Ethernet frames, the least significant octets first.
pub const LITTLE: &str = "D4C3B2A1 0200 0400 00000000 00000000 00000400 01000000";

/// The header of a capture of packets, the most significant octets first.
pub const BIG: &str = "A1B2C3D4 0002 0004 00000000 00000000 00040000 00000065";

/// The header of a record with a frame of 34 octets, the least significant octets first.
pub const OF_34: &str = "00000000 00000000 22000000 22000000";

/// The same with the most significant octets first, and a frame of 20 octets.
pub const OF_20: &str = "00000000 00000000 00000014 00000014";

/// What stands before the packet in an Ethernet frame: two addresses, and the type of IPv4.
pub const ETHERNET: &str = "000000000000 000000000000 0800";

/// More reads than any capture of these tests needs.
const READS: u32 = 100_000;

/// Appends the octets that hexadecimal digits spell, two for each. Spaces are passed over.
pub fn append(rt: &impl Abort, octets: &mut Vec<u8>, text: &str) {
    let mut high = None;
    for letter in text.bytes() {
        let Some(digit) = (letter as char).to_digit(16) else {
            continue;
        };
        match high {
            None => high = Some(digit as u8),
            Some(first) => {
                let octet = u8::wrapping_mul(first, 16).wrapping_add(digit as u8);
                octets.push(octet).expect(rt, "memory");
                high = None;
            }
        }
    }
}

/// The octets of these texts, one after the other.
pub fn octets_of(rt: &(impl Abort + AllocGlobal), texts: &[&str]) -> Vec<u8> {
    let mut octets = Vec::new(rt.alloc());
    for text in texts {
        append(rt, &mut octets, text);
    }
    octets
}

/// A source in memory of these octets, whose read of this number fails, and none where it is 0.
pub fn source(rt: &(impl Abort + AllocGlobal), octets: Vec<u8>, fails: u64) -> MemSource {
    let calls = Vec::from_slice(rt.alloc(), &[fails]).expect(rt, "memory");
    MemSource::new(octets, calls)
}

/// A capture in memory, of packets that came in on interface 0.
pub fn capture(rt: &(impl Abort + AllocGlobal), texts: &[&str]) -> PcapPackets<MemSource> {
    PcapPackets::new(source(rt, octets_of(rt, texts), 0), 0)
}

/// All octets that are given, and whether a read failed behind them.
pub fn given<S: Source + Drop>(
    rt: &(impl Abort + AllocGlobal),
    packets: &mut PcapPackets<S>,
) -> (Vec<u8>, bool) {
    let mut octets = Vec::new(rt.alloc());
    let mut buf = [0u8; 7];
    for _ in 0..READS {
        match packets.read(&mut buf) {
            Ok(0) => return (octets, false),
            Ok(count) => octets.extend_from_slice(&buf[..count]).expect(rt, "memory"),
            Err(Failed) => return (octets, true),
        }
    }
    assert!(rt; false, "an end");
    (octets, false)
}

/// That the capture gives these octets, and then ends, or fails in this call and in the next one.
pub fn is_given<S: Source + Drop>(
    rt: &(impl Abort + AllocGlobal),
    name: &str,
    packets: &mut PcapPackets<S>,
    wanted: &[&str],
    fails: bool,
) {
    let (octets, failed) = given(rt, packets);
    let wanted = octets_of(rt, wanted);
    assert_eq!(rt; octets.as_slice(), wanted.as_slice(), "{name}");
    assert_eq!(rt; failed, fails, "{name}");
    let (octets, failed) = given(rt, packets);
    assert_eq!(rt; octets.len(), 0, "{name}");
    assert_eq!(rt; failed, fails, "{name}");
}

//! Captures of other tools, in files.
use super::made::octets_of;
use super::recorded::{SCAPY_FILE, TCPDUMP_FILE};
use super::rounds::round;
use feed_io::{FileSource, OutSink};
use forward_worker::{CheckRow, WorkerEnd};
use ip_text::read_addr;
use pcap_packets::PcapPackets;
use std::fs;
use std::process::Abort;
use std::rt::Files;
use urpf_base::{Addr, write_all};

/// What tcpdump wrote: 38 Ethernet frames, of which these sources are in 20, some behind a VLAN tag,
/// least significant octets first.
const TCPDUMP: &str = "10.21.0.3 2001:db8:15::3 10.30.96.3 2001:db8:26::3 100.64.36.3 \
    2001:db8:3c::3 100.64.120.3 2001:db8:5:23::3 172.26.0.3 2001:db8:f030::3 192.168.46.3 \
    fd00:1::3 198.18.18.67 3fff:e00::3 198.18.33.35 2001:db8:b::3 8.8.8.8 2001:db8:1c::3 10.0.0.3 \
    2001:db8:36::3";

/// What scapy wrote: 79 packets, most significant octets first. Two of them name no source.
const SCAPY: &str = "10.0.0.3 10.0.0.3 2001:db8:b::3 10.0.0.3 10.3.0.3 2001:db8:11::3 10.5.0.3 \
    10.10.200.10 2001:db8:15::3 10.14.0.3 10.18.96.3 2001:db8:1c::3 10.21.0.3 10.22.0.3 \
    2001:db8:1f::3 10.25.0.3 10.27.27.3 2001:db8:26::3 10.27.48.3 10.28.0.3 2001:db8:36::3 \
    10.30.96.3 10.30.202.7 2001:db8:3a::3 10.34.0.3 10.36.0.3 2001:db8:3c::3 10.37.0.3 10.39.48.3 \
    2001:db8:49::3 100.64.36.3 100.64.44.3 2001:db8:57::3 100.64.64.3 100.64.68.3 2001:db8:5:23::3 \
    100.64.100.3 100.64.112.3 2001:db8:1b:bd::3 100.64.120.3 100.64.172.3 2001:db8:37:181::3 \
    100.64.176.3 100.64.196.3 2001:db8:f030::3 100.64.204.3 172.24.0.3 2001:db8:f090::3 172.26.0.3 \
    192.168.8.3 2001:db8:abcd::6 192.168.14.3 192.168.22.3 fd00:1::3 192.168.28.3 192.168.29.3 \
    fd00:6::3 192.168.46.3 192.168.92.3 3fff:100::3 192.168.98.3 192.168.99.3 3fff:e00::3 \
    198.18.4.131 198.18.12.131 2a00::1 198.18.18.67 198.18.24.3 fe80::1 198.18.25.35 198.18.30.195 \
    2001:db8:b::3 198.18.31.227 198.18.32.3 2001:db8:11::3 10.3.0.3 - - 2001:db8:15::3";

/// The source that a word names.
fn named(word: &str) -> Option<Addr> {
    if word == "-" {
        return None;
    }
    read_addr(word.as_bytes())
}

/// That the rows are of packets on interface 9 from these sources, and of no other packet.
fn are_from(rt: &impl Abort, rows: &[CheckRow], sources: &str) {
    let mut place = 0usize;
    for word in sources.split(' ') {
        let row = rows.get(place).copied().expect(rt, "a row");
        assert_eq!(rt; row.source, named(word), "{word}");
        assert_eq!(rt; row.iface, 9, "{word}");
        place = place.wrapping_add(1);
    }
    assert_eq!(rt; rows.len(), place);
}

/// The capture in this file.
fn capture_in<'a, R: Abort + AllocGlobal + Files>(
    rt: &'a R,
    name: &str,
) -> PcapPackets<FileSource<&'a R>> {
    let name = String::from_str(rt.alloc(), name).expect(rt, "memory");
    PcapPackets::new(FileSource::new(rt, name), 9)
}

/// A file of this name with these octets.
fn write_file(rt: &(impl Abort + AllocGlobal + Files), name: &str, octets: &str) {
    let octets = octets_of(rt, &[octets]);
    let mut sink = OutSink::new(fs::create(rt, name).expect(rt, "a file"));
    write_all(&mut sink, octets.as_slice()).expect(rt, "what is written");
}

#[test]
fn tcpdump_s_frames_give_their_packets(rt: HostRuntime) {
    write_file(&rt, "tcpdump.pcap", TCPDUMP_FILE);
    let round = round(&rt, &mut capture_in(&rt, "tcpdump.pcap"));
    assert_eq!(rt; round.outcome, WorkerEnd::End);
    are_from(&rt, round.rows.items(), TCPDUMP);
}

#[test]
fn scapy_s_packets_are_given(rt: HostRuntime) {
    write_file(&rt, "scapy.pcap", SCAPY_FILE);
    let round = round(&rt, &mut capture_in(&rt, "scapy.pcap"));
    assert_eq!(rt; round.outcome, WorkerEnd::End);
    are_from(&rt, round.rows.items(), SCAPY);
}

#[test]
fn a_file_that_is_missing_is_a_failure(rt: HostRuntime) {
    let round = round(&rt, &mut capture_in(&rt, "missing.pcap"));
    assert_eq!(rt; round.outcome, WorkerEnd::Failed);
    assert_eq!(rt; round.rows.items().len(), 0);
}

/// What may move to another thread.
fn may_move<T: Send>(_value: &T) -> bool {
    true
}

#[test]
fn a_capture_may_move_to_another_thread(rt: HostRuntime) {
    assert!(rt; may_move(&capture_in(&rt, "missing.pcap")));
}

//! Heads of packets with their source, and heads without one.
use ip_head::{HeadFault, source_of};
use std::process::Abort;
use urpf_base::Addr;

/// A UDP packet from 198.51.100.9 to 192.0.2.1, its header alone (RFC 791, section 3.1).
const IPV4: &[u8] = b"\x45\0\0\x1C\0\0\0\0\x40\x11\0\0\xC6\x33\x64\x09\xC0\0\x02\x01";

/// The same with a header length of 4 units.
const IPV4_OF_16: &[u8] = b"\x44\0\0\x1C\0\0\0\0\x40\x11\0\0\xC6\x33\x64\x09\xC0\0\x02\x01";

/// The same with a header length of 15 units, whose options are not there.
const IPV4_OF_60: &[u8] = b"\x4F\0\0\x1C\0\0\0\0\x40\x11\0\0\xC6\x33\x64\x09\xC0\0\x02\x01";

/// A UDP packet from 2001:db8::1 to 2001:db8::2, its header alone (RFC 8200, section 3).
const IPV6: &[u8] = b"\x60\0\0\0\0\x08\x11\x40\
    \x20\x01\x0D\xB8\0\0\0\0\0\0\0\0\0\0\0\x01\
    \x20\x01\x0D\xB8\0\0\0\0\0\0\0\0\0\0\0\x02";

/// What the octets have for a source.
fn has(rt: &impl Abort, name: &str, head: &[u8], wanted: Result<Addr, HeadFault>) {
    assert_eq!(rt; source_of(head), wanted, "{name}");
}

#[test]
fn a_whole_header_has_a_source(rt: HostRuntime) {
    let v4 = Ok(Addr::V4(0xC633_6409));
    let v6 = Ok(Addr::V6(0x2001_0DB8_0000_0000_0000_0000_0000_0001));
    has(&rt, "IPv4", IPV4, v4);
    has(&rt, "IPv4 with options", IPV4_OF_60, v4);
    has(&rt, "IPv6", IPV6, v6);
}

#[test]
fn other_heads_have_none(rt: HostRuntime) {
    has(&rt, "nothing", b"", Err(HeadFault::Short));
    has(&rt, "19 of IPv4", &IPV4[..19], Err(HeadFault::Short));
    has(&rt, "19 of IHL 4", &IPV4_OF_16[..19], Err(HeadFault::Short));
    has(&rt, "20 of IHL 4", IPV4_OF_16, Err(HeadFault::Ihl));
    has(&rt, "39 of IPv6", &IPV6[..39], Err(HeadFault::Short));
    has(&rt, "version 5", b"\x55", Err(HeadFault::Version));
    has(&rt, "version 0", &[0; 40], Err(HeadFault::Version));
}

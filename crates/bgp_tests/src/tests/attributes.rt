//! Attributes as messages hold them, and fields with one fault and with two.
use as_path::{Aggregators, Width, origin_of};
use bgp_attr::{AttrFault, walk};

/// ORIGIN, an AS_PATH of 64501 in four octets, NEXT_HOP 192.0.2.1.
const PLAIN: &[u8] = b"\x40\x01\x01\x00\
    \x40\x02\x06\x02\x01\x00\x00\xFB\xF5\
    \x40\x03\x04\xC0\x00\x02\x01";

/// The same with 2001:db8::/32 in MP_REACH_NLRI in place of NEXT_HOP.
const WIDE: &[u8] = b"\x40\x01\x01\x00\
    \x40\x02\x06\x02\x01\x00\x00\xFB\xF5\
    \x80\x0E\x1A\x00\x02\x01\x10\x20\x01\x0D\xB8\0\0\0\0\0\0\0\0\0\0\0\x01\x00\x20\x20\x01\x0D\xB8";

/// A community and a large community, then an attribute of a type without a row.
const PASSED_OVER: &[u8] = b"\xC0\x08\x04\xFB\xF5\x00\x64\
    \xC0\x20\x0C\x00\x00\xFB\xF5\x00\x00\x00\x01\x00\x00\x00\x02\
    \x80\x63\x00";

#[test]
fn plain_attributes_tell_origin_path_and_next_hop(rt: HostRuntime) {
    let attrs = walk(PLAIN, Width::Four, true).expect(&rt, "well formed");
    assert!(rt; attrs.has_origin && attrs.has_next_hop);
    let path = attrs.path.expect(&rt, "AS_PATH is there");
    assert_eq!(rt; origin_of(&path, None, attrs.aggregators), Some(64501));
    assert!(rt; attrs.reach.is_empty() && attrs.unreach.is_empty());
}

#[test]
fn attributes_without_a_row_are_passed_over(rt: HostRuntime) {
    let attrs = walk(PASSED_OVER, Width::Four, true).expect(&rt, "well formed");
    assert!(rt; !attrs.has_origin && !attrs.has_next_hop && attrs.path.is_none());
    let attrs = walk(b"", Width::Four, true).expect(&rt, "well formed");
    assert!(rt; !attrs.has_origin && !attrs.has_next_hop && attrs.path.is_none());
}

#[test]
fn ipv6_prefixes_are_told_where_the_peer_listed_them(rt: HostRuntime) {
    let prefix = b"\x20\x20\x01\x0D\xB8".as_slice();
    let attrs = walk(WIDE, Width::Four, true).expect(&rt, "well formed");
    assert_eq!(rt; attrs.reach, prefix);
    let attrs = walk(WIDE, Width::Four, false).expect(&rt, "well formed");
    assert!(rt; attrs.reach.is_empty());
    let end_of_rib = b"\x90\x0F\x00\x03\x00\x02\x01";
    let attrs = walk(end_of_rib, Width::Four, true).expect(&rt, "well formed");
    assert!(rt; attrs.unreach.is_empty());
    let withdrawn = b"\x80\x0F\x08\x00\x02\x01\x20\x20\x01\x0D\xB8";
    let attrs = walk(withdrawn, Width::Four, true).expect(&rt, "well formed");
    assert_eq!(rt; attrs.unreach, prefix);
    let ipv4 = b"\x80\x0F\x04\x00\x01\x01\x00";
    let attrs = walk(ipv4, Width::Four, true).expect(&rt, "well formed");
    assert!(rt; attrs.unreach.is_empty());
}

/// AS_PATH 64501 23456, AS4_PATH 100000, AGGREGATOR of 23456, AS4_AGGREGATOR of 100000.
const MERGED: &[u8] = b"\x40\x02\x06\x02\x02\xFB\xF5\x5B\xA0\
    \xC0\x11\x06\x02\x01\x00\x01\x86\xA0\
    \xC0\x07\x06\x5B\xA0\xC0\x00\x02\x01\
    \xC0\x12\x08\x00\x01\x86\xA0\xC0\x00\x02\x01";

#[test]
fn a_peer_of_two_octets_tells_both_paths(rt: HostRuntime) {
    let attrs = walk(MERGED, Width::Two, false).expect(&rt, "well formed");
    let path = attrs.path.expect(&rt, "AS_PATH is there");
    let as4 = attrs.as4.expect(&rt, "AS4_PATH is there");
    let both = Aggregators {
        own: Some(23456),
        four: Some(100_000),
    };
    assert_eq!(rt; attrs.aggregators, both);
    assert_eq!(rt; origin_of(&path, Some(&as4), both), Some(100_000));
    let empty = b"\xC0\x11\x00\xC0\x12\x04\x00\x01\x86\xA0";
    let attrs = walk(empty, Width::Two, false).expect(&rt, "discarded");
    assert!(rt; attrs.as4.is_none() && attrs.aggregators.four.is_none());
    let attrs = walk(b"\xC0\x11\x06\x02\x01\x00\x01\x86\xA0", Width::Four, false);
    assert!(rt; attrs.expect(&rt, "discarded").as4.is_none());
}

#[test]
fn the_first_fault_is_answered(rt: HostRuntime) {
    // The value of ORIGIN before the flags of AS_PATH.
    let fault = walk(b"\x40\x01\x01\x03\xC0\x02\x00", Width::Four, true).err();
    assert_eq!(rt; fault, Some(AttrFault { sub: 6 }));
}

#[test]
fn the_partial_flag_and_the_low_bits_do_not_count(rt: HostRuntime) {
    assert!(rt; walk(b"\x6F\x01\x01\x00", Width::Four, true).is_ok());
}

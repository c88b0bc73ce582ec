//! The texts of prefixes and AS numbers, and what is off their grammar.
use ip_text::{read_asn, read_prefix};
use std::process::Abort;
use urpf_base::{Addr, Prefix};

/// Texts, and the address and the length of the prefix that each is.
const PREFIXES: [(&[u8], Addr, u8); 4] = [
    (b"198.51.100.255/24", Addr::V4(0xC633_6400), 24),
    (b"0.0.0.0/0", Addr::V4(0), 0),
    (
        b"2001:db8::/32",
        Addr::V6(0x2001_0DB8_0000_0000_0000_0000_0000_0000),
        32,
    ),
    (b"::1/128", Addr::V6(1), 128),
];

/// Texts that are no prefix.
const NO_PREFIXES: [&[u8]; 7] = [
    b"198.51.100.0/33",
    b"2001:db8::/129",
    b"198.51.100.0/08",
    b"198.51.100.0/",
    b"198.51.100.0",
    b"/8",
    b"198.51.100.0/24/24",
];

/// Texts, and the AS number that each is.
const NUMBERS: [(&[u8], Option<u32>); 8] = [
    (b"64501", Some(64501)),
    (b"AS0", Some(0)),
    (b"aS4294967295", Some(4_294_967_295)),
    (b"AS4294967296", None),
    (b"AS01", None),
    (b"AS", None),
    (b"AS 1", None),
    (b"1.10", None),
];

/// That each text is read as this prefix.
fn are_prefixes(rt: &impl Abort, rows: &[(&[u8], Addr, u8)]) {
    for (text, addr, len) in rows {
        let wanted = Prefix::new(*addr, *len);
        assert!(rt; wanted.is_some() && read_prefix(text) == wanted, "{text:?}");
    }
}

/// That no text is a prefix.
fn are_none(rt: &impl Abort, texts: &[&[u8]]) {
    for text in texts {
        assert!(rt; read_prefix(text).is_none(), "{text:?}");
    }
}

/// That each text is read as this number.
fn are_numbers(rt: &impl Abort, rows: &[(&[u8], Option<u32>)]) {
    for (text, wanted) in rows {
        assert!(rt; read_asn(text) == *wanted, "{text:?}");
    }
}

#[test]
fn an_address_and_a_length_are_a_prefix(rt: HostRuntime) {
    are_prefixes(&rt, &PREFIXES);
    are_none(&rt, &NO_PREFIXES);
}

#[test]
fn digits_are_an_as_number(rt: HostRuntime) {
    are_numbers(&rt, &NUMBERS);
}

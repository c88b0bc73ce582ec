//! The texts of addresses and numbers, and what is off their grammar.
use ip_text::{put_addr, put_number, read_addr, read_number};
use std::process::Abort;
use urpf_base::{Addr, Line};

/// Texts, and the address that each is.
const ADDRESSES: [(&[u8], Addr); 10] = [
    (b"192.0.2.1", Addr::V4(0xC000_0201)),
    (b"0.0.0.0", Addr::V4(0)),
    (b"255.255.255.255", Addr::V4(0xFFFF_FFFF)),
    (b"::", Addr::V6(0)),
    (
        b"2001:db8::1",
        Addr::V6(0x2001_0DB8_0000_0000_0000_0000_0000_0001),
    ),
    (
        b"1:2:3:4:5:6:7:8",
        Addr::V6(0x0001_0002_0003_0004_0005_0006_0007_0008),
    ),
    (b"1::", Addr::V6(0x0001_0000_0000_0000_0000_0000_0000_0000)),
    (
        b"1:2:3:4:5:6:7::",
        Addr::V6(0x0001_0002_0003_0004_0005_0006_0007_0000),
    ),
    (
        b"::2:3:4:5:6:7:8",
        Addr::V6(0x0000_0002_0003_0004_0005_0006_0007_0008),
    ),
    (b"::FfFf", Addr::V6(0xFFFF)),
];

/// Texts that are no address.
const NO_ADDRESSES: [&[u8]; 16] = [
    b"01.2.3.4",
    b"1.2.3",
    b"",
    b"256.0.0.1",
    b"1.2.3.4.",
    b" 1.2.3.4",
    b"1:2:3:4:5:6:7:8::",
    b":::",
    b"1:::2",
    b"12345::",
    b"1:2:3:4:5:6:7",
    b"::1::",
    b"1:2:3:4:5:6:7:8:9",
    b":1::",
    b"g::",
    b"::1.2.3.4",
];

/// That each text is read as this address.
fn are_addresses(rt: &impl Abort, rows: &[(&[u8], Addr)]) {
    for row in rows {
        let (text, addr) = *row;
        assert_eq!(rt; read_addr(text), Some(addr), "{text:?}");
    }
}

/// That no text is an address.
fn are_none(rt: &impl Abort, rows: &[&[u8]]) {
    for text in rows {
        assert_eq!(rt; read_addr(text), None, "{text:?}");
    }
}

#[test]
fn an_address_is_read_and_other_texts_are_not(rt: HostRuntime) {
    are_addresses(&rt, &ADDRESSES);
    are_none(&rt, &NO_ADDRESSES);
}

/// Addresses, and how each is printed.
const PRINTED: [(Addr, &[u8]); 2] = [
    (Addr::V4(0xC633_6409), b"198.51.100.9"),
    (
        Addr::V6(0x2001_0DB8_0000_0000_0000_0000_0000_000A),
        b"2001:0db8:0000:0000:0000:0000:0000:000a",
    ),
];

/// Numbers, and how each is printed.
const PRINTED_NUMBERS: [(u64, &[u8]); 3] = [
    (0, b"0"),
    (907, b"907"),
    (u64::MAX, b"18446744073709551615"),
];

/// That each address is printed so.
fn are_printed(rt: &impl Abort, rows: &[(Addr, &[u8])]) {
    for row in rows {
        let (addr, text) = *row;
        let mut line = Line::new();
        put_addr(&addr, &mut line);
        assert_eq!(rt; line.bytes(), text);
    }
}

/// That each number is printed so.
fn are_printed_numbers(rt: &impl Abort, rows: &[(u64, &[u8])]) {
    for row in rows {
        let (number, text) = *row;
        let mut line = Line::new();
        put_number(number, &mut line);
        assert_eq!(rt; line.bytes(), text);
    }
}

#[test]
fn addresses_and_numbers_are_printed(rt: HostRuntime) {
    are_printed(&rt, &PRINTED);
    are_printed_numbers(&rt, &PRINTED_NUMBERS);
}

/// Texts, the greatest number that is taken, and the number that is read.
const NUMBERS: [(&[u8], u32, Option<u32>); 8] = [
    (b"0", 0, Some(0)),
    (b"65535", 65535, Some(65535)),
    (b"65536", 65535, None),
    (b"4294967295", u32::MAX, Some(u32::MAX)),
    (b"4294967296", u32::MAX, None),
    (b"00", 9, None),
    (b"", 9, None),
    (b"+1", 9, None),
];

/// That this is read of each text.
fn are_numbers(rt: &impl Abort, rows: &[(&[u8], u32, Option<u32>)]) {
    for row in rows {
        let (text, most, number) = *row;
        assert_eq!(rt; read_number(text, most), number, "{text:?}");
    }
}

#[test]
fn a_number_is_read_up_to_its_bound(rt: HostRuntime) {
    are_numbers(&rt, &NUMBERS);
}

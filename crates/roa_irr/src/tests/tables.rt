//! VRP tables.
use super::{counts, is_pair};
use crate::read_vrps;
use std::alloc::Global;
use std::process::Abort;
use urpf_base::Addr;

/// Tables, and how many pairs and skipped records each has: of any number of fields, without a last
/// line feed, with octets that are no text, and with an open quote.
const TABLES: [(&[u8], usize, u64); 7] = [
    (b"", 0, 0),
    (b"\n\n", 0, 0),
    (b"AS1\n1,2001:db8::/32\nas2,10.0.0.0/8,24,a,b", 2, 1),
    (b"1,10.0.0.0/8\r\n\xff\xfe,\"open\n", 1, 1),
    (b"\xef\xbb\xbf1,10.0.0.0/8\n1,10.0.0.0/8\n", 2, 0),
    (b"AS1, 10.0.0.0/8\nAS 1,10.0.0.0/8\n", 0, 2),
    (
        b"10.0.0.0/8,AS1\nAS1,10.0.0.0/33\n\"AS1\",\"10.0.0.0/8\"\n",
        1,
        2,
    ),
];

/// The first lines of tables as validators print them, each with a header, and in the last form
/// with the URI in the first column.
const PRINTED: [(&[u8], usize, u64); 5] = [
    (
        b"ASN,IP Prefix,Max Length,Trust Anchor,Expires\n\
        AS23456,10.0.202.4/30,32,test,1798669292\n\
        AS64524,10.3.48.0/20,24,test,1798669292\n",
        2,
        1,
    ),
    (
        b"ASN,Prefix,Max prefix length\n\
        AS64510,10.15.202.4/30,32\n\
        AS64510,2001:db8:2d:13b::/64,71\n",
        2,
        1,
    ),
    (
        b"ASN,IP Prefix,Max Length,Trust Anchor\n\
        AS23456,10.0.202.4/30,32,test\n\
        AS64524,10.3.48.0/20,24,test\n\
        AS23456,10.4.0.0/16,19,test\n",
        3,
        1,
    ),
    (
        b"\"ASN\",\"IP Prefix\",\"Max Length\",\"Trust Anchor\"\n\
        \"AS23456\",\"10.0.202.4/30\",\"32\",\"test\"\n\
        \"AS64524\",\"10.3.48.0/20\",\"24\",\"test\"\n",
        2,
        1,
    ),
    (
        b"URI,ASN,IP Prefix,Max Length,Not Before,Not After\n\
        rsync://rpki.example/repo/x.roa,AS23456,10.0.202.4/30,32,\
        2024-01-01 00:00:00,2030-01-01 00:00:00\n",
        0,
        2,
    ),
];

/// That each table has so many pairs and skipped records.
fn have(rt: &impl Abort, alloc: Global, rows: &[(&[u8], usize, u64)]) {
    for (text, pairs, skipped) in rows {
        if text.len() < 0xffff_ffff {
            let found = counts(read_vrps(alloc, text));
            assert!(rt; found == Some((*pairs, *skipped)), "{text:?}");
        }
    }
}

#[test]
fn no_error_comes_of_any_form(rt: HostRuntime) {
    have(&rt, rt.alloc(), &TABLES);
}

#[test]
fn what_validators_print_is_read(rt: HostRuntime) {
    have(&rt, rt.alloc(), &PRINTED);
}

#[test]
fn a_header_is_skipped_and_counted(rt: HostRuntime) {
    let text = b"ASN,IP Prefix,Max Length,Trust Anchor\nAS64501,192.0.2.0/24,24,test\n";
    let table = read_vrps(rt.alloc(), text);
    assert!(&rt; table.is_ok());
    if let Ok(pairs) = table {
        assert!(&rt; pairs.len() == 1);
        assert!(&rt; pairs.skipped() == 1);
        assert!(&rt; is_pair(&pairs, 0, Addr::V4(0xc000_0200), 24, 64501));
    }
}

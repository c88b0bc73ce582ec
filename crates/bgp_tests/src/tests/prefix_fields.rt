//! Fields of prefixes as messages hold them, and fields that no message may hold.
use bgp_nlri::{Family, Prefixes, check};
use std::process::Abort;
use urpf_base::{Addr, Prefix};

fn v4(rt: &impl Abort, number: u32, len: u8) -> Prefix {
    Prefix::new(Addr::V4(number), len).expect(rt, "the length fits")
}

fn v6(rt: &impl Abort, number: u128, len: u8) -> Prefix {
    Prefix::new(Addr::V6(number), len).expect(rt, "the length fits")
}

/// The field is well formed, and holds just these prefixes.
fn holds(rt: &impl Abort, name: &str, field: &[u8], family: Family, wanted: &[Prefix]) {
    assert!(rt; check(field, family), "{name}");
    let mut prefixes = Prefixes::over(field, family);
    for prefix in wanted {
        assert_eq!(rt; prefixes.next(), Some(*prefix), "{name}");
    }
    assert_eq!(rt; prefixes.next(), None, "{name}");
}

#[test]
fn a_field_gives_its_prefixes_in_order(rt: HostRuntime) {
    let one = [v4(&rt, 0xC633_6400, 24)];
    holds(&rt, "one", b"\x18\xC6\x33\x64", Family::V4, &one);
    let two = [v4(&rt, 0xC000_0201, 32), v4(&rt, 0xC633_6480, 25)];
    let field = b"\x20\xC0\x00\x02\x01\x19\xC6\x33\x64\xFF";
    holds(&rt, "two, bits past the length", field, Family::V4, &two);
    holds(&rt, "none", b"", Family::V4, &[]);
    holds(&rt, "all", b"\x00", Family::V4, &[v4(&rt, 0, 0)]);
    let wide = [v6(&rt, 0x2001_0DB8 << 96, 32), v6(&rt, 1, 128)];
    let field = b"\x20\x20\x01\x0D\xB8\x80\0\0\0\0\0\0\0\0\0\0\0\0\0\0\0\x01";
    holds(&rt, "IPv6", field, Family::V6, &wide);
}

/// A field that is not well formed, with what is wrong with it.
#[derive(Clone, Copy)]
struct Refused {
    name: &'static str,
    field: &'static [u8],
    family: Family,
}

const REFUSED: [Refused; 4] = [
    Refused {
        name: "33 bits of IPv4",
        field: b"\x21\xC6\x33\x64\x00\x00",
        family: Family::V4,
    },
    Refused {
        name: "129 bits of IPv6",
        field: b"\x81\0\0\0\0\0\0\0\0\0\0\0\0\0\0\0\0\0",
        family: Family::V6,
    },
    Refused {
        name: "the only prefix runs past the field",
        field: b"\x18\xC6\x33",
        family: Family::V4,
    },
    Refused {
        name: "the second prefix runs past the field",
        field: b"\x18\xC6\x33\x64\x19\xC6\x33\x64",
        family: Family::V4,
    },
];

/// That no field is taken.
fn are_refused(rt: &impl Abort, rows: &[Refused]) {
    for refused in rows {
        assert!(rt; !check(refused.field, refused.family), "{}", refused.name);
    }
}

#[test]
fn a_field_off_its_form_is_refused(rt: HostRuntime) {
    are_refused(&rt, &REFUSED);
}

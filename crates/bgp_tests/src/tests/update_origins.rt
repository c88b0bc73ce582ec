//! The origins of announced routes, from peers of four-octet and of two-octet AS numbers.
use super::updates::read;
use as_path::Width;
use std::process::Abort;
use urpf_base::Origin;

/// A body that announces a route, with the origin of the route.
#[derive(Clone, Copy)]
struct Row {
    name: &'static str,
    width: Width,
    body: &'static [u8],
    origin: Origin,
}

const ROWS: [Row; 13] = [
    Row {
        name: "one AS",
        width: Width::Four,
        body: b"\x00\x00\
            \x00\x14\
            \x40\x01\x01\x00\
            \x40\x02\x06\x02\x01\x00\x00\xFB\xF5\
            \x40\x03\x04\xC0\x00\x02\x01\
            \x18\xC6\x33\x64",
        origin: Some(64501),
    },
    Row {
        name: "a set at the end",
        width: Width::Four,
        body: b"\x00\x00\
            \x00\x1E\
            \x40\x01\x01\x00\
            \x40\x02\x10\x02\x01\x00\x00\xFB\xF5\x01\x02\x00\x00\xFB\xF6\x00\x00\xFB\xF7\
            \x40\x03\x04\xC0\x00\x02\x01\
            \x18\xC6\x33\x64",
        origin: None,
    },
    Row {
        name: "an empty path",
        width: Width::Four,
        body: b"\x00\x00\
            \x00\x0E\
            \x40\x01\x01\x00\
            \x40\x02\x00\
            \x40\x03\x04\xC0\x00\x02\x01\
            \x18\xC6\x33\x64",
        origin: None,
    },
    Row {
        name: "AS 0",
        width: Width::Four,
        body: b"\x00\x00\
            \x00\x14\
            \x40\x01\x01\x00\
            \x40\x02\x06\x02\x01\x00\x00\x00\x00\
            \x40\x03\x04\xC0\x00\x02\x01\
            \x18\xC6\x33\x64",
        origin: None,
    },
    Row {
        name: "AS4_PATH from a peer of four-octet AS numbers",
        width: Width::Four,
        body: b"\x00\x00\
            \x00\x1D\
            \x40\x01\x01\x00\
            \x40\x02\x06\x02\x01\x00\x00\xFB\xF5\
            \x40\x03\x04\xC0\x00\x02\x01\
            \xC0\x11\x06\x02\x01\x00\x01\x86\xA0\
            \x18\xC6\x33\x64",
        origin: Some(64501),
    },
    Row {
        name: "AS4_PATH of one hop",
        width: Width::Two,
        body: b"\x00\x00\
            \x00\x1D\
            \x40\x01\x01\x00\
            \x40\x02\x06\x02\x02\xFB\xF5\x5B\xA0\
            \x40\x03\x04\xC0\x00\x02\x01\
            \xC0\x11\x06\x02\x01\x00\x01\x86\xA0\
            \x18\xC6\x33\x64",
        origin: Some(100_000),
    },
    Row {
        name: "AS4_PATH of as many hops",
        width: Width::Two,
        body: b"\x00\x00\
            \x00\x21\
            \x40\x01\x01\x00\
            \x40\x02\x06\x02\x02\xFB\xF5\x5B\xA0\
            \x40\x03\x04\xC0\x00\x02\x01\
            \xC0\x11\x0A\x02\x02\x00\x00\xFB\xF5\x00\x01\x86\xA0\
            \x18\xC6\x33\x64",
        origin: Some(100_000),
    },
    Row {
        name: "AS4_PATH of more hops",
        width: Width::Two,
        body: b"\x00\x00\
            \x00\x25\
            \x40\x01\x01\x00\
            \x40\x02\x06\x02\x02\xFB\xF5\x5B\xA0\
            \x40\x03\x04\xC0\x00\x02\x01\
            \xC0\x11\x0E\x02\x03\x00\x00\xFB\xF5\x00\x00\xFB\xF6\x00\x01\x86\xA0\
            \x18\xC6\x33\x64",
        origin: Some(23456),
    },
    Row {
        name: "aggregated by a speaker of two-octet AS numbers",
        width: Width::Two,
        body: b"\x00\x00\
            \x00\x31\
            \x40\x01\x01\x00\
            \x40\x02\x06\x02\x02\xFB\xF5\x5B\xA0\
            \x40\x03\x04\xC0\x00\x02\x01\
            \xC0\x07\x06\xFB\xF5\xC0\x00\x02\x01\
            \xC0\x11\x06\x02\x01\x00\x01\x86\xA0\
            \xC0\x12\x08\x00\x01\x86\xA0\xC0\x00\x02\x01\
            \x18\xC6\x33\x64",
        origin: Some(23456),
    },
    Row {
        name: "aggregated by a speaker of four-octet AS numbers",
        width: Width::Two,
        body: b"\x00\x00\
            \x00\x31\
            \x40\x01\x01\x00\
            \x40\x02\x06\x02\x02\xFB\xF5\x5B\xA0\
            \x40\x03\x04\xC0\x00\x02\x01\
            \xC0\x07\x06\x5B\xA0\xC0\x00\x02\x01\
            \xC0\x11\x06\x02\x01\x00\x01\x86\xA0\
            \xC0\x12\x08\x00\x01\x86\xA0\xC0\x00\x02\x01\
            \x18\xC6\x33\x64",
        origin: Some(100_000),
    },
    Row {
        name: "a malformed AS4_PATH",
        width: Width::Two,
        body: b"\x00\x00\
            \x00\x19\
            \x40\x01\x01\x00\
            \x40\x02\x06\x02\x02\xFB\xF5\x5B\xA0\
            \x40\x03\x04\xC0\x00\x02\x01\
            \xC0\x11\x02\x02\x00\
            \x18\xC6\x33\x64",
        origin: Some(23456),
    },
    Row {
        name: "a segment of a confederation in AS4_PATH",
        width: Width::Two,
        body: b"\x00\x00\
            \x00\x1D\
            \x40\x01\x01\x00\
            \x40\x02\x06\x02\x02\xFB\xF5\x5B\xA0\
            \x40\x03\x04\xC0\x00\x02\x01\
            \xC0\x11\x06\x03\x01\x00\x01\x86\xA0\
            \x18\xC6\x33\x64",
        origin: Some(23456),
    },
    Row {
        name: "AS4_PATH of one set",
        width: Width::Two,
        body: b"\x00\x00\
            \x00\x1D\
            \x40\x01\x01\x00\
            \x40\x02\x06\x02\x02\xFB\xF5\x5B\xA0\
            \x40\x03\x04\xC0\x00\x02\x01\
            \xC0\x11\x06\x01\x01\x00\x01\x86\xA0\
            \x18\xC6\x33\x64",
        origin: None,
    },
];

/// That each body announces a route of this origin.
fn have_origins(rt: &impl Abort, rows: &[Row]) {
    for row in rows {
        let update = read(rt, row.body, row.width, true).expect(rt, "no fault");
        assert_eq!(rt; update.origin(), row.origin, "{}", row.name);
    }
}

#[test]
fn a_route_has_the_origin_of_its_path(rt: HostRuntime) {
    have_origins(&rt, &ROWS);
}

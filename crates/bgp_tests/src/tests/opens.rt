//! What no clause says: bodies of OPENs made by hand, with no fault, one fault or two.
use bgp_open::{OpenFault, OpenSeen, read_notification, read_open};
use std::process::Abort;

/// The answer of a row.
#[derive(Clone, Copy)]
enum Answer {
    /// A peer in AS 64501 with a hold time of 90 seconds and the identifier 192.0.2.1.
    Seen { four_octet: bool, v6: bool },
    /// A fault of this subcode.
    Fault(u8),
}

/// That a body from a peer in AS 64501 has this answer.
fn is_read(rt: &impl Abort, name: &str, body: &[u8], answer: Answer) {
    assert!(rt; body.len() >= 10, "{name}");
    let wanted = match answer {
        Answer::Seen { four_octet, v6 } => Ok(OpenSeen {
            asn: 64501,
            hold: 90,
            id: 0xC000_0201,
            four_octet,
            v6,
        }),
        Answer::Fault(sub) => Err(OpenFault { sub }),
    };
    assert_eq!(rt; read_open(body, 64501), wanted, "{name}");
}

const PLAIN: Answer = Answer::Seen {
    four_octet: false,
    v6: false,
};

const FOUR_OCTET: Answer = Answer::Seen {
    four_octet: true,
    v6: false,
};

const IPV6: Answer = Answer::Seen {
    four_octet: false,
    v6: true,
};

/// Whole bodies: version, AS, hold time, identifier, length of the parameters.
const BODIES: [(&str, &[u8], Answer); 3] = [
    (
        "two octets",
        b"\x04\xFB\xF5\x00\x5A\xC0\x00\x02\x01\x00",
        PLAIN,
    ),
    // My Autonomous System is 23456, AS_TRANS, and capability 65 has the AS.
    (
        "AS_TRANS beside 65",
        b"\x04\x5B\xA0\x00\x5A\xC0\x00\x02\x01\x08\x02\x06\x41\x04\x00\x00\xFB\xF5",
        FOUR_OCTET,
    ),
    (
        "hold 2, identifier 0",
        b"\x04\xFB\xF5\x00\x02\x00\x00\x00\x00\x00",
        Answer::Fault(6),
    ),
];

/// That each body is read so.
fn are_read(rt: &impl Abort, rows: &[(&str, &[u8], Answer)]) {
    for row in rows {
        let (name, body, answer) = *row;
        is_read(rt, name, body, answer);
    }
}

#[test]
fn an_open_is_judged_by_its_first_fault(rt: HostRuntime) {
    are_read(&rt, &BODIES);
    assert_eq!(rt; read_notification(&[6, 2, 0xAB]), (6, 2));
}

/// Version 4, My Autonomous System 64501, hold time 90, identifier 192.0.2.1.
const HEAD: [u8; 9] = [0x04, 0xFB, 0xF5, 0x00, 0x5A, 0xC0, 0x00, 0x02, 0x01];

/// The length of the parameters and the parameters, which come behind that head.
const PARAMETERS: [(&str, &[u8], Answer); 5] = [
    (
        "65 behind an unknown capability",
        b"\x0C\x02\x02\x02\x00\x02\x06\x41\x04\x00\x00\xFB\xF5",
        FOUR_OCTET,
    ),
    (
        "IPv6 unicast",
        b"\x08\x02\x06\x01\x04\x00\x02\x00\x01",
        IPV6,
    ),
    (
        "IPv4 unicast",
        b"\x08\x02\x06\x01\x04\x00\x01\x00\x01",
        PLAIN,
    ),
    (
        "IPv6 multicast",
        b"\x08\x02\x06\x01\x04\x00\x02\x00\x02",
        PLAIN,
    ),
    (
        "65 twice, the last counts",
        b"\x0E\x02\x0C\x41\x04\x00\x00\xFB\xF6\x41\x04\x00\x00\xFB\xF5",
        FOUR_OCTET,
    ),
];

/// That a body of the head and each of these is read so.
fn are_read_behind_the_head(rt: &(impl Abort + AllocGlobal), rows: &[(&str, &[u8], Answer)]) {
    for row in rows {
        let (name, parameters, answer) = *row;
        let mut body = Vec::from_slice(rt.alloc(), &HEAD).expect(rt, "memory");
        body.extend_from_slice(parameters).expect(rt, "memory");
        is_read(rt, name, &body, answer);
    }
}

#[test]
fn parameters_are_judged_in_their_order(rt: HostRuntime) {
    are_read_behind_the_head(&rt, &PARAMETERS);
}

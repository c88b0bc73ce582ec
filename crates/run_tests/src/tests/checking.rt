//! `check` over a stream of one UPDATE: its line, and what comes of a fault of the outside.
use crate::tests::inputs::{sink, source, words};
use message_octets::ANNOUNCE;
use std::process::Abort;
use urpf_cli::{Object, Status, check_one};

/// A `check` of an address, and what comes of it. These reads and writes fail, by their numbers from
/// 1.
#[derive(Clone, Copy)]
struct Check {
    address: &'static str,
    reads: &'static [u64],
    writes: &'static [u64],
    status: Status,
    text: &'static str,
}

/// The route covers the source.
const COVERED: Check = Check {
    address: "198.51.100.9",
    reads: &[],
    writes: &[],
    status: Status::Done,
    text: "check 198.51.100.9 pass messages 1 prefixes 1 rest 0\n",
};

const CHECKS: &[Check] = &[
    COVERED,
    Check {
        reads: &[2],
        status: Status::ReadFault(Object::Stream),
        text: "",
        ..COVERED
    },
    Check {
        writes: &[1],
        status: Status::WriteFault,
        text: "",
        ..COVERED
    },
    // No address is told before the stream is read.
    Check {
        address: "198.51.100.09",
        reads: &[1],
        status: Status::Usage,
        text: "",
        ..COVERED
    },
];

/// That this comes of each.
fn come(rt: &(impl Abort + AllocGlobal), checks: &[Check]) {
    for check in checks {
        let mut session = source(rt, &ANNOUNCE, check.reads);
        let mut out = sink(rt, check.writes);
        let words = words(rt, &["check", "session", check.address]);
        let status = check_one(rt.alloc(), &words, &mut session, &mut out);
        assert_eq!(rt; status, check.status);
        assert_eq!(rt; out.held(), check.text.as_bytes());
    }
}

#[test]
fn a_stream_has_its_line_or_its_fault(rt: HostRuntime) {
    come(&rt, CHECKS);
}

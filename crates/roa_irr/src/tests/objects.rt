//! IRR texts.
use super::{counts, is_pair};
use crate::read_irr;
use std::alloc::Global;
use std::process::Abort;
use urpf_base::Addr;

/// Two routes, one whose prefix is too long, and an object of another class.
const WORKED: &[u8] = b"route:   198.51.100.0/24\n\
    descr:   example\n\
    origin:  AS64501 # first\n\
    \n\
    route6:  2001:db8::/32\n\
    origin:\n\
    + AS64502\n\
    \n\
    route:   198.51.100.0/33\n\
    origin:  AS64503\n\
    \n\
    person:  Someone\n";

/// The lines of an object, and whether it gives a pair or is skipped.
const LINES: [(&[u8], usize, u64); 14] = [
    // Carriage returns before line feeds are dropped, and only there.
    (
        b"route: 10.0.0.0/8\r\norigin: AS1\r\n\r\nroute: 10.0.0.0/8\r\norigin: AS1\r\n",
        2,
        0,
    ),
    (b"route: 10.0.0.0/8\norigin: AS1\r", 0, 1),
    // The last line need not end.
    (b"route: 10.0.0.0/8\norigin: AS1", 1, 0),
    // A space, a tab and a plus sign continue a value, and a comment ends with its line.
    (
        b"route:# none\n # none\n\t10.0.0.0/8# net\norigin:\n+AS1 #first\n",
        1,
        0,
    ),
    // A line of blanks alone continues the value too, and parts no objects.
    (b"route: 10.0.0.0/8\n \n\t\n+\norigin: AS1\n", 1, 0),
    // Two parts are not one text, not even where both together would spell it.
    (b"route: 10.0.0.0\n+/8\norigin: AS1\n", 0, 1),
    (b"route: 10.0.0.0/8\norigin: AS1\n AS2\n", 0, 1),
    // Remarks and lines without a colon are passed over, and end no value.
    (
        b"% remark\nroute:\n# remark\nno colon\n 10.0.0.0/8\n%\norigin: AS1\n",
        1,
        0,
    ),
    // What continues nothing is passed over, and an empty line parts objects.
    (b" 10.0.0.0/8\nroute: 10.0.0.0/8\n\norigin: AS1\n", 0, 1),
    // Names are compared in either case, and not trimmed.
    (b"RoUtE: 10.0.0.0/8\nOrigin: as1\n", 1, 0),
    (b"route : 10.0.0.0/8\norigin: AS1\n", 0, 0),
    (b"route: 10.0.0.0/8\norigin : AS1\n", 0, 1),
    // Only the first attribute is the class, and its value the prefix.
    (b"descr: x\nroute: 10.0.0.0/8\norigin: AS1\n", 0, 0),
    (b"route: x\nroute: 10.0.0.0/8\norigin: AS1\n", 0, 1),
];

/// The class has the family, and the prefix and the number no other form.
const FORMS: [(&[u8], usize, u64); 9] = [
    (b"route6: 10.0.0.0/8\norigin: AS1\n", 0, 1),
    (b"route: 2001:db8::/32\norigin: AS1\n", 0, 1),
    (b"route6: 2001:db8::/32\norigin: AS1\n", 1, 0),
    (b"route: 10.0.0.0/8\norigin: AS1.10\n", 0, 1),
    (b"route: 10.0.0.0/8\norigin: x\norigin: AS1\n", 0, 1),
    (b"route: 10.0.0.0/8\n", 0, 1),
    (b"", 0, 0),
    (b"\n\n\n", 0, 0),
    (b"person: x\n\nroute:\n\nas-set: AS-X\norigin: AS1\n", 0, 1),
];

/// The first and some later objects of a registry's dump: values of several lines, names in either
/// case, remarks, an origin below its name, two origins, and an AS number in the dotted form.
const DUMPED: &[u8] = b"% This is the TEST database, in the style of an IRR dump.\n\
    %\n\
    # Comments of both kinds stand between objects.\n\
    \n\
    route:          192.168.65.0/24\n\
    descr:          A route of an example network,\n\
    \x20               with a value of\n\
    +               several lines\n\
    \tand a tab\n\
    origin:         AS64511\n\
    mnt-by:         MAINT-EXAMPLE\n\
    \n\
    \n\
    % a remark between objects\n\
    \n\
    Route:          192.168.67.0/24\n\
    Origin:         As64523  # first\n\
    \n\
    route:          10.0.201.128/25\n\
    descr:          origin: AS64999 is only text here\n\
    origin:         AS65550\n\
    \n\
    route6:         2001:db8:53::/48\n\
    origin:\n\
    \x20               AS64519\n\
    \n\
    route:          192.0.2.0/24\n\
    origin:         AS1.10\n\
    source:         TEST\n\
    \n\
    route6:         2001:db8:42::/48\n\
    mnt-by:         MAINT-EXAMPLE\n\
    origin:         AS64525\n\
    origin:         AS64999\n\
    source:         TEST\n";

/// That each text has so many pairs and skipped objects.
fn have(rt: &impl Abort, alloc: Global, rows: &[(&[u8], usize, u64)]) {
    for (text, pairs, skipped) in rows {
        if text.len() < 0xffff_ffff {
            let found = counts(read_irr(alloc, text));
            assert!(rt; found == Some((*pairs, *skipped)), "{text:?}");
        }
    }
}

#[test]
fn routes_give_their_pairs(rt: HostRuntime) {
    let table = read_irr(rt.alloc(), WORKED);
    assert!(&rt; table.is_ok());
    if let Ok(pairs) = table {
        assert!(&rt; pairs.len() == 2);
        assert!(&rt; pairs.skipped() == 1);
        assert!(&rt; is_pair(&pairs, 0, Addr::V4(0xc633_6400), 24, 64501));
        let v6 = Addr::V6(0x2001_0db8_0000_0000_0000_0000_0000_0000);
        assert!(&rt; is_pair(&pairs, 1, v6, 32, 64502));
    }
}

#[test]
fn lines_are_parted_and_joined(rt: HostRuntime) {
    have(&rt, rt.alloc(), &LINES);
}

#[test]
fn an_object_of_another_form_gives_no_pair(rt: HostRuntime) {
    have(&rt, rt.alloc(), &FORMS);
}

#[test]
fn what_registries_publish_is_read(rt: HostRuntime) {
    let table = read_irr(rt.alloc(), DUMPED);
    assert!(&rt; table.is_ok());
    if let Ok(pairs) = table {
        assert!(&rt; pairs.len() == 5);
        assert!(&rt; pairs.skipped() == 1);
        assert!(&rt; is_pair(&pairs, 0, Addr::V4(0xc0a8_4100), 24, 64511));
        assert!(&rt; is_pair(&pairs, 1, Addr::V4(0xc0a8_4300), 24, 64523));
        assert!(&rt; is_pair(&pairs, 2, Addr::V4(0x0a00_c980), 25, 65550));
        let first = Addr::V6(0x2001_0db8_0053_0000_0000_0000_0000_0000);
        assert!(&rt; is_pair(&pairs, 3, first, 48, 64519));
        let second = Addr::V6(0x2001_0db8_0042_0000_0000_0000_0000_0000);
        assert!(&rt; is_pair(&pairs, 4, second, 48, 64525));
    }
}

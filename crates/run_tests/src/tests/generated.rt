//! Runs over sessions that a generator makes, beside traces and events in memory.
use crate::tests::calling::{DONE, Run, end};
use crate::tests::inputs::Event;
use crate::tests::rows::ANNOUNCE_OF_64502;
use message_octets::{KEEPALIVE, OPEN, OPEN_OF_64502};

/// AS 64501 announces 1.0.0.0/24, whose origin is AS 100000.
const ANNOUNCE_OF_100000: [u8; 51] = [
    0xFF, 0xFF, 0xFF, 0xFF, 0xFF, 0xFF, 0xFF, 0xFF, 0xFF, 0xFF, 0xFF, 0xFF, 0xFF, 0xFF, 0xFF, 0xFF,
    0x00, 0x33, 0x02, 0x00, 0x00, 0x00, 0x18, 0x40, 0x01, 0x01, 0x00, 0x40, 0x02, 0x0A, 0x02, 0x02,
    0x00, 0x00, 0xFB, 0xF5, 0x00, 0x01, 0x86, 0xA0, 0x40, 0x03, 0x04, 0xC0, 0x00, 0x02, 0x01, 0x18,
    0x01, 0x00, 0x00,
];

/// An OPEN of AS 64503.
const OPEN_OF_64503: [u8; 37] = [
    0xFF, 0xFF, 0xFF, 0xFF, 0xFF, 0xFF, 0xFF, 0xFF, 0xFF, 0xFF, 0xFF, 0xFF, 0xFF, 0xFF, 0xFF, 0xFF,
    0x00, 0x25, 0x01, 0x04, 0xFB, 0xF7, 0x00, 0x5A, 0xC0, 0x00, 0x02, 0x01, 0x08, 0x02, 0x06, 0x41,
    0x04, 0x00, 0x00, 0xFB, 0xF7,
];

/// AS 64503 announces 198.51.100.0/24, whose origin is AS 100007.
const ANNOUNCE_OF_100007: [u8; 51] = [
    0xFF, 0xFF, 0xFF, 0xFF, 0xFF, 0xFF, 0xFF, 0xFF, 0xFF, 0xFF, 0xFF, 0xFF, 0xFF, 0xFF, 0xFF, 0xFF,
    0x00, 0x33, 0x02, 0x00, 0x00, 0x00, 0x18, 0x40, 0x01, 0x01, 0x00, 0x40, 0x02, 0x0A, 0x02, 0x02,
    0x00, 0x00, 0xFB, 0xF7, 0x00, 0x01, 0x86, 0xA7, 0x40, 0x03, 0x04, 0xC0, 0x00, 0x02, 0x01, 0x18,
    0xC6, 0x33, 0x64,
];

/// Three customers, two of them with routes of origins that a provider has too. The provider is
/// generated: 800 prefixes, eight of each origin, among them 1.0.0.0/24 to 1.0.7.0/24 of AS 100000
/// and 1.0.8.0/24 to 1.0.15.0/24 of AS 100007.
const GENERATED_PROVIDER: Run<'static> = Run {
    words: &[
        "offline",
        "config",
        "book",
        "vrp:table",
        "first",
        "second",
        "third",
        "gen:7:800",
    ],
    config: "\
interface = [
  {number = 0, role = \"customer\", mode = \"efp-a\"},
  {number = 1, role = \"customer\", mode = \"efp-a\"},
  {number = 2, role = \"customer\", mode = \"efp-a\"},
  {number = 3, role = \"provider\", mode = \"loose\"},
]
session = [
  {interface = 0, peer_as = 64501},
  {interface = 1, peer_as = 64502},
  {interface = 2, peer_as = 64503},
  {interface = 3, peer_as = 64499},
]
",
    book: "pull * all\nsummary\nrole 3 customer\npublish\nrole 3 provider\npublish\n\
        check 0 1.0.1.5\ncheck 2 1.0.1.5\ncheck 2 1.0.8.9\nmode 0 efp-b\npublish\n\
        check 0 1.0.8.9\ncheck 0 1.0.16.9\n",
    pairs: "ASN,IP Prefix,Max Length,Trust Anchor\n\
        AS64502,192.0.2.0/24\n100000,1.0.0.0/24\nAS64510,192.0.2.128/25\n",
    pairs_fails: &[],
    events: &[
        &[
            Event::Up,
            Event::Octets(&OPEN),
            Event::Octets(&KEEPALIVE),
            Event::Octets(&ANNOUNCE_OF_100000),
        ],
        &[
            Event::Up,
            Event::Octets(&OPEN_OF_64502),
            Event::Octets(&KEEPALIVE),
            Event::Octets(&ANNOUNCE_OF_64502),
        ],
        &[
            Event::Up,
            Event::Octets(&OPEN_OF_64503),
            Event::Octets(&KEEPALIVE),
            Event::Octets(&ANNOUNCE_OF_100007),
        ],
    ],
    text: "run interfaces 4 sessions 4 pairs 3 skipped 1\n\
        publish 0 edits 0 cells 0 items 0 0 0 0\n\
        end 0 items 4 rest 0\n\
        end 1 items 4 rest 0\n\
        end 2 items 4 rest 0\n\
        end 3 items 103 rest 0\n\
        summary rows 803 pairs 3\n\
        publish 1 edits 1 cells 802 items 4 4 4 103\n\
        publish 2 edits 2 cells 801 items 4 4 4 103\n\
        check 0 1.0.1.5 pass 2\n\
        check 2 1.0.1.5 drop 2\n\
        check 2 1.0.8.9 pass 2\n\
        publish 3 edits 3 cells 0 items 4 4 4 103\n\
        check 0 1.0.8.9 pass 3\n\
        check 0 1.0.16.9 drop 3\n\
        done publications 3 packets 0\n",
    ..DONE
};

#[test]
fn a_generated_session_stands_beside_others(rt: HostRuntime) {
    end(&rt, &[GENERATED_PROVIDER]);
}

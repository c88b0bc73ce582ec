//! Whole runs over given events: source sets by each mode, tables of pairs, and sessions that end
//! by themselves.
use crate::tests::calling::{DONE, Run, end};
use crate::tests::inputs::{Event, FULL};
use message_octets::{ANNOUNCE, KEEPALIVE, OPEN, OPEN_OF_64502, TWO_PREFIXES, WITHDRAW};

/// An OPEN of AS 64499, a provider's.
const OPEN_OF_64499: [u8; 37] = [
    0xFF, 0xFF, 0xFF, 0xFF, 0xFF, 0xFF, 0xFF, 0xFF, 0xFF, 0xFF, 0xFF, 0xFF, 0xFF, 0xFF, 0xFF, 0xFF,
    0x00, 0x25, 0x01, 0x04, 0xFB, 0xF3, 0x00, 0x5A, 0xC0, 0x00, 0x02, 0x09, 0x08, 0x02, 0x06, 0x41,
    0x04, 0x00, 0x00, 0xFB, 0xF3,
];

/// AS 64502 announces 192.0.2.0/24.
pub const ANNOUNCE_OF_64502: [u8; 47] = [
    0xFF, 0xFF, 0xFF, 0xFF, 0xFF, 0xFF, 0xFF, 0xFF, 0xFF, 0xFF, 0xFF, 0xFF, 0xFF, 0xFF, 0xFF, 0xFF,
    0x00, 0x2F, 0x02, 0x00, 0x00, 0x00, 0x14, 0x40, 0x01, 0x01, 0x00, 0x40, 0x02, 0x06, 0x02, 0x01,
    0x00, 0x00, 0xFB, 0xF6, 0x40, 0x03, 0x04, 0xC0, 0x00, 0x02, 0x01, 0x18, 0xC0, 0x00, 0x02,
];

/// AS 64502 announces 198.51.100.0/24.
const ANNOUNCE_TOO: [u8; 47] = [
    0xFF, 0xFF, 0xFF, 0xFF, 0xFF, 0xFF, 0xFF, 0xFF, 0xFF, 0xFF, 0xFF, 0xFF, 0xFF, 0xFF, 0xFF, 0xFF,
    0x00, 0x2F, 0x02, 0x00, 0x00, 0x00, 0x14, 0x40, 0x01, 0x01, 0x00, 0x40, 0x02, 0x06, 0x02, 0x01,
    0x00, 0x00, 0xFB, 0xF6, 0x40, 0x03, 0x04, 0xC0, 0x00, 0x02, 0x01, 0x18, 0xC6, 0x33, 0x64,
];

/// AS 64499 announces 203.0.113.0/24, whose origin is AS 64501.
const ANNOUNCE_OF_64499: [u8; 51] = [
    0xFF, 0xFF, 0xFF, 0xFF, 0xFF, 0xFF, 0xFF, 0xFF, 0xFF, 0xFF, 0xFF, 0xFF, 0xFF, 0xFF, 0xFF, 0xFF,
    0x00, 0x33, 0x02, 0x00, 0x00, 0x00, 0x18, 0x40, 0x01, 0x01, 0x00, 0x40, 0x02, 0x0A, 0x02, 0x02,
    0x00, 0x00, 0xFB, 0xF3, 0x00, 0x00, 0xFB, 0xF5, 0x40, 0x03, 0x04, 0xC0, 0x00, 0x02, 0x01, 0x18,
    0xCB, 0x00, 0x71,
];

/// AS 64501 announces 0.0.0.0/0.
const DEFAULT_ROUTE: [u8; 44] = [
    0xFF, 0xFF, 0xFF, 0xFF, 0xFF, 0xFF, 0xFF, 0xFF, 0xFF, 0xFF, 0xFF, 0xFF, 0xFF, 0xFF, 0xFF, 0xFF,
    0x00, 0x2C, 0x02, 0x00, 0x00, 0x00, 0x14, 0x40, 0x01, 0x01, 0x00, 0x40, 0x02, 0x06, 0x02, 0x01,
    0x00, 0x00, 0xFB, 0xF5, 0x40, 0x03, 0x04, 0xC0, 0x00, 0x02, 0x01, 0x00,
];

/// A session of a customer of AS 64502.
const SECOND_CUSTOMER: &[Event<'static>] = &[
    Event::Up,
    Event::Octets(&OPEN_OF_64502),
    Event::Octets(&KEEPALIVE),
    Event::Octets(&ANNOUNCE_OF_64502),
];

/// A session of a customer of AS 64502, whose prefix another customer announces too.
const SHARING_CUSTOMER: &[Event<'static>] = &[
    Event::Up,
    Event::Octets(&OPEN_OF_64502),
    Event::Octets(&KEEPALIVE),
    Event::Octets(&ANNOUNCE_TOO),
];

/// A session of a provider, which announces a prefix of AS 64501.
const PROVIDER: &[Event<'static>] = &[
    Event::Up,
    Event::Octets(&OPEN_OF_64499),
    Event::Octets(&KEEPALIVE),
    Event::Octets(&ANNOUNCE_OF_64499),
];

/// A full session whose only route is withdrawn.
const WITHDRAWN: &[Event<'static>] = &[
    Event::Up,
    Event::Octets(&OPEN),
    Event::Octets(&KEEPALIVE),
    Event::Octets(&ANNOUNCE),
    Event::Octets(&WITHDRAW),
];

/// A full session with a KEEPALIVE in time, and then nothing for three seconds.
const SILENT: &[Event<'static>] = &[
    Event::Up,
    Event::Octets(&OPEN),
    Event::Octets(&KEEPALIVE),
    Event::Octets(&ANNOUNCE),
    Event::Elapsed(2),
    Event::Octets(&KEEPALIVE),
    Event::Elapsed(2),
    Event::Elapsed(1),
];

/// Two customers by Algorithm A, on interfaces 0 and 1, and a provider on 2.
const ALGORITHM_A: Run<'static> = Run {
    words: &[
        "offline", "config", "book", "none", "first", "second", "third",
    ],
    config: "\
interface = [
  {number = 0, role = \"customer\", mode = \"efp-a\"},
  {number = 1, role = \"customer\", mode = \"efp-a\"},
  {number = 2, role = \"provider\", mode = \"loose\"},
]
session = [
  {interface = 0, peer_as = 64501},
  {interface = 1, peer_as = 64502},
  {interface = 2, peer_as = 64499},
]
",
    book: "pull * all\nsummary\npublish\ncheck 0 192.0.2.5\nmode 0 efp-b\npublish\ncheck 0 192.0.2.5\n",
    events: &[FULL, SECOND_CUSTOMER, PROVIDER],
    text: "run interfaces 3 sessions 3 pairs 0 skipped 0\n\
        publish 0 edits 0 cells 0 items 0 0 0\n\
        end 0 items 4 rest 0\n\
        end 1 items 4 rest 0\n\
        end 2 items 4 rest 0\n\
        summary rows 3 pairs 0\n\
        publish 1 edits 0 cells 3 items 4 4 4\n\
        check 0 192.0.2.5 drop 1\n\
        publish 2 edits 1 cells 0 items 4 4 4\n\
        check 0 192.0.2.5 pass 2\n\
        done publications 2 packets 0\n",
    ..DONE
};

/// The same interfaces with a VRP table, over a prefix of two origins. The pair goes by its origin, so
/// it reaches interface 0 alone.
const WITH_TABLE: Run<'static> = Run {
    words: &[
        "offline",
        "config",
        "book",
        "vrp:table",
        "first",
        "second",
        "third",
    ],
    book: "pull * all\nsummary\npublish\ncheck 0 203.0.113.1\ncheck 1 203.0.113.1\n\
        check 0 192.0.2.1\ncheck 1 192.0.2.1\n",
    pairs: "ASN,IP Prefix,Max Length,Trust Anchor\nAS64501,192.0.2.0/24,24,test\n",
    pairs_fails: &[],
    events: &[FULL, SHARING_CUSTOMER, PROVIDER],
    text: "run interfaces 3 sessions 3 pairs 1 skipped 1\n\
        publish 0 edits 0 cells 0 items 0 0 0\n\
        end 0 items 4 rest 0\n\
        end 1 items 4 rest 0\n\
        end 2 items 4 rest 0\n\
        summary rows 3 pairs 1\n\
        publish 1 edits 0 cells 3 items 4 4 4\n\
        check 0 203.0.113.1 pass 1\n\
        check 1 203.0.113.1 pass 1\n\
        check 0 192.0.2.1 pass 1\n\
        check 1 192.0.2.1 drop 1\n\
        done publications 1 packets 0\n",
    ..ALGORITHM_A
};

/// The same without a table, where two lines of the book add the pair.
const WITH_PAIR_LINES: Run<'static> = Run {
    words: &[
        "offline", "config", "book", "none", "first", "second", "third",
    ],
    book: "pull * all\npair add 192.0.2.0/24 AS64501\npair add 192.0.2.0/24 64501\nsummary\npublish\n\
        check 0 203.0.113.1\ncheck 1 203.0.113.1\ncheck 0 192.0.2.1\ncheck 1 192.0.2.1\n",
    pairs_fails: &[1],
    text: "run interfaces 3 sessions 3 pairs 0 skipped 0\n\
        publish 0 edits 0 cells 0 items 0 0 0\n\
        end 0 items 4 rest 0\n\
        end 1 items 4 rest 0\n\
        end 2 items 4 rest 0\n\
        summary rows 3 pairs 1\n\
        publish 1 edits 2 cells 3 items 4 4 4\n\
        check 0 203.0.113.1 pass 1\n\
        check 1 203.0.113.1 pass 1\n\
        check 0 192.0.2.1 pass 1\n\
        check 1 192.0.2.1 drop 1\n\
        done publications 1 packets 0\n",
    ..WITH_TABLE
};

/// An IRR text with a pair of each family, a route that gives none, and an object of another class. The
/// book takes away one pair, adds one that is there, and takes one away that is not.
const WITH_IRR_TEXT: Run<'static> = Run {
    words: &["offline", "config", "book", "irr:text", "session"],
    book: "summary\npair del 2001:db8::/32 64502\npair add 198.51.100.0/24 AS64501\n\
        pair del 192.0.2.0/24 64501\nsummary\npublish\nsummary\n",
    pairs: "route:   198.51.100.0/24\ndescr:   example\norigin:  AS64501 # first\n\n\
        route6:  2001:db8::/32\norigin:\n+ AS64502\n\n\
        route:   198.51.100.0/33\norigin:  AS64503\n\n\
        person:  Someone\n",
    pairs_fails: &[],
    text: "run interfaces 1 sessions 1 pairs 2 skipped 1\n\
        publish 0 edits 0 cells 0 items 0\n\
        summary rows 0 pairs 2\n\
        summary rows 0 pairs 1\n\
        publish 1 edits 3 cells 0 items 0\n\
        summary rows 0 pairs 1\n\
        done publications 1 packets 0\n",
    ..DONE
};

/// A VRP table in which a pair stands twice: the run line counts it once.
const WITH_REPEATS: Run<'static> = Run {
    words: &["offline", "config", "book", "vrp:table", "session"],
    book: "summary\n",
    pairs: "64501,192.0.2.0/24\nas64501,192.0.2.0/24,24\nAS64502,192.0.2.0/24\n",
    text: "run interfaces 1 sessions 1 pairs 2 skipped 0\n\
        publish 0 edits 0 cells 0 items 0\n\
        summary rows 0 pairs 2\n\
        done publications 0 packets 0\n",
    ..WITH_IRR_TEXT
};

/// A session that ends by its hold time.
const EXPIRED: Run<'static> = Run {
    config: "\
interface = [{number = 0, role = \"customer\", mode = \"feasible\"}]
session = [{interface = 0, peer_as = 64501, hold = 3}]
",
    book: "pull 0 all\npublish\ncheck 0 198.51.100.9\n",
    events: &[SILENT],
    text: "run interfaces 1 sessions 1 pairs 0 skipped 0\n\
        publish 0 edits 0 cells 0 items 0\n\
        reset 0 item 8 fault 4 0\n\
        end 0 items 8 rest 0\n\
        publish 1 edits 0 cells 0 items 8\n\
        check 0 198.51.100.9 drop 1\n\
        done publications 1 packets 0\n",
    ..DONE
};

const ROWS: &[Run<'static>] = &[
    ALGORITHM_A,
    WITH_TABLE,
    WITH_PAIR_LINES,
    WITH_IRR_TEXT,
    WITH_REPEATS,
    // AS 64501 is a customer's origin no longer.
    Run {
        book: "pull * 4\npublish\ncheck 0 203.0.113.1\npull 0 1\ncheck 0 203.0.113.1\npublish\n\
            check 0 203.0.113.1\n",
        events: &[WITHDRAWN, SECOND_CUSTOMER, PROVIDER],
        text: "run interfaces 3 sessions 3 pairs 0 skipped 0\n\
            publish 0 edits 0 cells 0 items 0 0 0\n\
            publish 1 edits 0 cells 3 items 4 4 4\n\
            check 0 203.0.113.1 pass 1\n\
            check 0 203.0.113.1 pass 1\n\
            publish 2 edits 0 cells 2 items 5 4 4\n\
            check 0 203.0.113.1 drop 2\n\
            done publications 2 packets 0\n",
        ..ALGORITHM_A
    },
    // A default route counts in mode loose, and in loose-nodefault it does not.
    Run {
        config: "\
interface = [{number = 0, role = \"customer\", mode = \"loose\"}]
session = [{interface = 0, peer_as = 64501}]
",
        book: "pull 0 all\npublish\ncheck 0 203.0.113.7\nmode 0 loose-nodefault\npublish\n\
            check 0 203.0.113.7\n",
        events: &[&[
            Event::Up,
            Event::Octets(&OPEN),
            Event::Octets(&KEEPALIVE),
            Event::Octets(&DEFAULT_ROUTE),
        ]],
        text: "run interfaces 1 sessions 1 pairs 0 skipped 0\n\
            publish 0 edits 0 cells 0 items 0\n\
            end 0 items 4 rest 0\n\
            publish 1 edits 0 cells 1 items 4\n\
            check 0 203.0.113.7 pass 1\n\
            publish 2 edits 1 cells 0 items 4\n\
            check 0 203.0.113.7 drop 2\n\
            done publications 2 packets 0\n",
        ..DONE
    },
    EXPIRED,
    // One prefix more than the maximum.
    Run {
        config: "\
interface = [{number = 0, role = \"customer\", mode = \"feasible\"}]
session = [{interface = 0, peer_as = 64501, max_prefixes = 1}]
",
        events: &[&[
            Event::Up,
            Event::Octets(&OPEN),
            Event::Octets(&KEEPALIVE),
            Event::Octets(&TWO_PREFIXES),
        ]],
        text: "run interfaces 1 sessions 1 pairs 0 skipped 0\n\
            publish 0 edits 0 cells 0 items 0\n\
            reset 0 item 4 fault 6 1\n\
            end 0 items 4 rest 0\n\
            publish 1 edits 0 cells 0 items 4\n\
            check 0 198.51.100.9 drop 1\n\
            done publications 1 packets 0\n",
        ..EXPIRED
    },
];

#[test]
fn runs_over_given_events_write_their_whole_text(rt: HostRuntime) {
    end(&rt, ROWS);
}

//! `offline` over sessions: where it is done, where its inputs are refused, and where the outside
//! fails.
use crate::tests::calling::{DONE, Run, end, ends};
use crate::tests::inputs::ONE_CUSTOMER;
use router_config::ConfigKind;
use runbook::BookKind;
use urpf_cli::{Object, Status};

/// A call whose words fit no form, which is told before anything is read or written.
const MISUSED: Run<'static> = Run {
    words: &["offline", "a", "b"],
    config_fails: &[1],
    book_fails: &[1],
    feed_fails: &[1],
    write_fails: &[1],
    status: Status::Usage,
    text: "",
    ..DONE
};

/// A configuration of a role that is none, which is told before the book is read.
const OF_NO_ROLE: Run<'static> = Run {
    words: &["offline", "config", "book", "none", "session"],
    config: "interface = [{number = 0, role = \"client\", mode = \"feasible\"}]",
    config_fails: &[],
    status: Status::BadConfig {
        kind: ConfigKind::Role,
        index: 0,
    },
    ..MISUSED
};

/// A book that pulls a session that is not configured, which is told before the table of pairs is read
/// and the sessions are counted.
const OF_NO_SESSION: Run<'static> = Run {
    words: &["offline", "config", "book", "vrp:table"],
    config: ONE_CUSTOMER,
    book: "pull 1 all\npublish\n",
    book_fails: &[],
    status: Status::BadBook {
        line: 1,
        kind: BookKind::Session,
    },
    ..OF_NO_ROLE
};

const REFUSED: &[Run<'static>] = &[
    MISUSED,
    Run {
        words: &["offline", "config", "book", "none", ""],
        ..MISUSED
    },
    Run {
        words: &["offline", ":", "book", "none", "session"],
        ..MISUSED
    },
    Run {
        words: &["offline", "config", "book", "", "session"],
        ..MISUSED
    },
    Run {
        words: &["offline", "config", "book", "None", "session"],
        ..MISUSED
    },
    Run {
        words: &["offline", "config", "book", "vrp:", "session"],
        ..MISUSED
    },
    Run {
        words: &["offline", "config", "book", "irr:", "session"],
        ..MISUSED
    },
    Run {
        words: &["offline", "config", "book", "table", "session"],
        ..MISUSED
    },
    Run {
        words: &["offline", "config", "book", "VRP:table", "session"],
        ..MISUSED
    },
    Run {
        words: &["offline", "config", "book", "none", "gen:1"],
        ..MISUSED
    },
    Run {
        words: &["offline", "config", "book", "none", "gen:65536:1"],
        ..MISUSED
    },
    Run {
        words: &["offline", "config", "book", "none", "gen:1:0"],
        ..MISUSED
    },
    Run {
        words: &["offline", "config", "book", "none", "gen:1:4000001"],
        ..MISUSED
    },
    Run {
        words: &["offline", "config", "book", "none", "session", "gen:01:1"],
        ..MISUSED
    },
    OF_NO_ROLE,
    OF_NO_SESSION,
    Run {
        book: "publish\nchek 0 1.2.3.4\npull 1 all\n",
        status: Status::BadBook {
            line: 2,
            kind: BookKind::Syntax,
        },
        ..OF_NO_SESSION
    },
    // A read of the table is tried before the sessions are counted, and not where there is none.
    Run {
        words: &[
            "offline",
            "config",
            "book",
            "vrp:table",
            "session",
            "session",
        ],
        book: "publish\n",
        status: Status::ReadFault(Object::Pairs),
        ..OF_NO_SESSION
    },
    Run {
        words: &[
            "offline",
            "config",
            "book",
            "irr:table",
            "session",
            "session",
        ],
        book: "publish\n",
        pairs_fails: &[2],
        status: Status::ReadFault(Object::Pairs),
        ..OF_NO_SESSION
    },
    Run {
        words: &[
            "offline",
            "config",
            "book",
            "vrp:table",
            "session",
            "session",
        ],
        book: "publish\n",
        pairs_fails: &[],
        status: Status::SessionCount {
            given: 2,
            wanted: 1,
        },
        ..OF_NO_SESSION
    },
    Run {
        words: &["offline", "config", "book", "none", "session", "session"],
        book: "publish\n",
        status: Status::SessionCount {
            given: 2,
            wanted: 1,
        },
        ..OF_NO_SESSION
    },
    // Generators are sessions too.
    Run {
        words: &[
            "offline",
            "config",
            "book",
            "none",
            "gen:0:1",
            "gen:65535:4000000",
        ],
        book: "publish\n",
        status: Status::SessionCount {
            given: 2,
            wanted: 1,
        },
        ..OF_NO_SESSION
    },
];

#[test]
fn what_is_refused_is_told_first(rt: HostRuntime) {
    end(&rt, REFUSED);
    let mut spaces = String::new(rt.alloc());
    for _ in 0..1_048_577 {
        spaces.push(' ').expect(&rt, "memory");
    }
    let too_long = Run {
        config: spaces.as_str(),
        status: Status::TooLong(Object::Config),
        ..OF_NO_ROLE
    };
    ends(&rt, &too_long);
}

/// The run line and the line of publication 0.
const HEAD: &str = "run interfaces 1 sessions 1 pairs 0 skipped 0\n\
    publish 0 edits 0 cells 0 items 0\n";

/// A feed whose third call fails.
pub const OF_A_FAILED_FEED: Run<'static> = Run {
    feed_fails: &[3],
    status: Status::ReadFault(Object::Session(0)),
    text: HEAD,
    ..DONE
};

const RUNS: &[Run<'static>] = &[
    DONE,
    OF_A_FAILED_FEED,
    Run {
        write_fails: &[2],
        status: Status::WriteFault,
        text: "run interfaces 1 sessions 1 pairs 0 skipped 0\n",
        ..DONE
    },
    Run {
        config_fails: &[2],
        status: Status::ReadFault(Object::Config),
        text: "",
        ..DONE
    },
    Run {
        book_fails: &[2],
        status: Status::ReadFault(Object::Book),
        text: "",
        ..DONE
    },
];

#[test]
fn a_run_is_done_or_tells_the_fault_of_the_outside(rt: HostRuntime) {
    end(&rt, RUNS);
}

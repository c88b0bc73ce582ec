//! Worked runs with workers.
use crate::tests::meeting::Meeting;
use crate::tests::runs::run;
use feed_io::NoGate;
use live_rounds::LiveFault;

/// Everything up to the number of the first row, which a check beside publications names.
const FRONT: &str = "run interfaces 1 sessions 1 pairs 0 skipped 0\n\
    publish 0 edits 0 cells 0 items 0\n\
    publish 1 edits 0 cells 0 items 0\n\
    end 0 items 4 rest 0\n\
    publish 2 edits 0 cells 1 items 4\n\
    round 1\n\
    packet 0 1 0 198.51.100.9 drop ";

/// Everything behind it.
const REST: &str = "\n\
    round 2\n\
    packet 0 2 0 198.51.100.9 pass 2\n\
    packet 1 1 9 198.51.100.9 noif 2\n\
    publish 3 edits 0 cells 0 items 4\n\
    packet 0 3 0 198.51.100.9 pass 3\n\
    packet 1 2 0 - badhead 3\n\
    done publications 3 packets 5\n";

/// What a run writes before the first line of its book.
const HEAD: &str = "run interfaces 1 sessions 1 pairs 0 skipped 0\n\
    publish 0 edits 0 cells 0 items 0\n";

#[test]
fn checks_and_publications_run_beside_each_other(rt: HostRuntime) {
    let gate = Meeting::new();
    let book = "publish\npull 0 all\npublish\nround\nround\npublish\n";
    let (result, out) = run(&rt, book, &["PMPMP", "MQME"], &gate);
    assert!(&rt; !gate.is_late());
    assert_eq!(&rt; result, Ok(()));
    let text = out.held();
    assert!(&rt; text.starts_with(FRONT.as_bytes()));
    assert!(&rt; text.ends_with(REST.as_bytes()));
    assert!(&rt; text.len() == FRONT.len() + 1 + REST.len());
    let number = text.get(FRONT.len()).copied();
    assert!(&rt; matches!(number, Some(b'0' | b'1')));
}

#[test]
fn a_broken_stream_stops_the_run_behind_its_rows(rt: HostRuntime) {
    let (result, out) = run(&rt, "", &["C"], &NoGate);
    assert_eq!(&rt;
        result,
        Err(LiveFault::Bad {
            worker: 0,
            place: 1
        })
    );
    assert_eq!(&rt; out.held(), HEAD.as_bytes());
}

#[test]
fn workers_that_read_everything_in_one_round_are_all_told(rt: HostRuntime) {
    let (result, out) = run(&rt, "pull 0 all\npublish\n", &["P", "P", "QP"], &NoGate);
    assert_eq!(&rt; result, Ok(()));
    let text = "run interfaces 1 sessions 1 pairs 0 skipped 0\n\
        publish 0 edits 0 cells 0 items 0\n\
        end 0 items 4 rest 0\n\
        publish 1 edits 0 cells 1 items 4\n\
        packet 0 1 0 198.51.100.9 pass 1\n\
        packet 1 1 0 198.51.100.9 pass 1\n\
        packet 2 1 9 198.51.100.9 noif 1\n\
        packet 2 2 0 198.51.100.9 pass 1\n\
        done publications 1 packets 4\n";
    assert_eq!(&rt; out.held(), text.as_bytes());
}

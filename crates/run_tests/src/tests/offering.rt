//! Lines are offered to a sink whole, each in one write.
ghost use Rattle.std.specs.Prelude.{None, ◌≡◌};

use crate::tests::calling::{DONE, Run, Traced, status_of};
use crate::tests::inputs::{Event, source, words};
use message_octets::{ANNOUNCE, KEEPALIVE, OPEN};
use std::alloc::Global;
use std::process::Abort;
use urpf_base::{Failed, Sink};
use urpf_cli::{Status, check_one};

/// A sink that keeps every piece that it is offered, apart. It takes each whole, and fails where it
/// has no memory for it.
#[derive(Drop)]
struct PieceSink {
    alloc: Global,
    pieces: Vec<Vec<u8>>,
    faults: u64,
}

impl PieceSink {
    fn new(alloc: Global) -> PieceSink {
        PieceSink {
            alloc,
            pieces: Vec::new(alloc),
            faults: 0,
        }
    }

    /// Keeps a copy of the piece. Answers whether there was memory for it.
    fn keep(&mut self, piece: &[u8]) -> bool
        ensures { self.new.faults ≡ self.old.faults }
    {
        match Vec::from_slice(self.alloc, piece) {
            Ok(copy) => self.pieces.push(copy).is_ok(),
            Err(_) => false,
        }
    }
}

impl Sink for PieceSink {
    ghost held = { λ _. None };

    ghost faults = { λ s. s.faults };

    fn write(&mut self, piece: &[u8]) -> Result<usize, Failed> {
        if self.keep(piece) {
            return Ok(piece.len());
        }
        self.faults = self.faults.saturating_add(1);
        Err(Failed)
    }
}

/// A session with two resets, and a line of each kind.
const TWO_RESETS: Run<'static> = Run {
    book: "pull 0 4\nsummary\npublish\ncheck 0 198.51.100.9\nround\npull * all\n",
    events: &[&[
        Event::Up,
        Event::Octets(&OPEN),
        Event::Octets(&KEEPALIVE),
        Event::Octets(&ANNOUNCE),
        Event::Down,
        Event::Up,
        Event::Octets(&KEEPALIVE),
    ]],
    ..DONE
};

/// The lines of this run.
const LINES: &[&str] = &[
    "run interfaces 1 sessions 1 pairs 0 skipped 0\n",
    "publish 0 edits 0 cells 0 items 0\n",
    "summary rows 1 pairs 0\n",
    "publish 1 edits 0 cells 1 items 4\n",
    "check 0 198.51.100.9 pass 1\n",
    "round 1\n",
    "reset 0 item 5 closed\n",
    "reset 0 item 7 fault 5 0\n",
    "end 0 items 7 rest 0\n",
    "done publications 1 packets 0\n",
];

/// That the sink was offered these lines, each in one piece.
fn are_pieces(rt: &impl Abort, sink: &PieceSink, lines: &[&str]) {
    assert_eq!(rt; sink.pieces.len(), lines.len());
    for (piece, line) in sink.pieces.iter().zip(lines) {
        assert_eq!(rt; piece.as_slice(), line.as_bytes());
    }
}

/// That the run over these sessions offers its lines whole.
fn are_offered_whole(rt: &(impl Abort + AllocGlobal), traced: Traced) {
    let mut out = PieceSink::new(rt.alloc());
    let status = status_of(rt, &TWO_RESETS, traced, &mut out);
    assert_eq!(rt; status, Status::Done);
    are_pieces(rt, &out, LINES);
}

#[test]
fn each_line_is_offered_whole_in_one_write(rt: HostRuntime) {
    are_offered_whole(&rt, Traced::None);
    are_offered_whole(&rt, Traced::Even);

    let mut session = source(&rt, &ANNOUNCE, &[]);
    let mut out = PieceSink::new(rt.alloc());
    let line = words(&rt, &["check", "session", "198.51.100.9"]);
    let status = check_one(rt.alloc(), &line, &mut session, &mut out);
    assert_eq!(rt; status, Status::Done);
    let wanted = "check 198.51.100.9 pass messages 1 prefixes 1 rest 0\n";
    are_pieces(&rt, &out, &[wanted]);
}

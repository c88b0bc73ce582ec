//! Calls of `offline`, each over feeds in memory and over lists of several types: what they are
//! lent, and how they end.
use crate::tests::inputs::{Event, FULL, ONE_CUSTOMER, feed, sink, source, words};
use crate::tests::traces::trace;
use feed_io::{BoxedFeed, GenFeed, read_gen};
use std::process::Abort;
use urpf_base::Sink;
use urpf_cli::{Status, feed_names, offline};

/// A call of `offline`, and what comes of it.
#[derive(Clone, Copy)]
pub struct Run<'a> {
    pub words: &'a [&'a str],
    pub config: &'a str,
    pub book: &'a str,
    pub pairs: &'a str,
    /// The events of the sessions, one after the other. Those behind them are full.
    pub events: &'a [&'a [Event<'a>]],
    /// The calls that fail, by their numbers from 1: reads of the configuration, of the book and of the
    /// table of pairs, calls of each feed, and writes.
    pub config_fails: &'a [u64],
    pub book_fails: &'a [u64],
    pub pairs_fails: &'a [u64],
    pub feed_fails: &'a [u64],
    pub write_fails: &'a [u64],
    pub status: Status,
    pub text: &'a str,
}

/// A run with one full session and without a table of pairs, which writes its whole text. A read of
/// the table would fail.
pub const DONE: Run<'static> = Run {
    words: &["offline", "config", "book", "none", "session"],
    config: ONE_CUSTOMER,
    book: "pull 0 all\npublish\ncheck 0 198.51.100.9\ncheck 0 198.51.101.0\n",
    pairs: "AS64501,192.0.2.0/24\n",
    events: &[FULL],
    config_fails: &[],
    book_fails: &[],
    pairs_fails: &[1],
    feed_fails: &[],
    write_fails: &[],
    status: Status::Done,
    text: "run interfaces 1 sessions 1 pairs 0 skipped 0\n\
        publish 0 edits 0 cells 0 items 0\n\
        end 0 items 4 rest 0\n\
        publish 1 edits 0 cells 1 items 4\n\
        check 0 198.51.100.9 pass 1\n\
        check 0 198.51.101.0 drop 1\n\
        done publications 1 packets 0\n",
};

/// Which sessions of a call are told by traces, by their places from 0. The events of the others
/// are in memory.
#[derive(Clone, Copy, Debug)]
pub enum Traced {
    None,
    Even,
    Odd,
}

/// Whether a trace tells the session at this place. None does where a later call than the first
/// fails: the reads of a trace have other numbers than its calls.
fn is_traced(run: &Run<'_>, traced: Traced, place: usize) -> bool {
    let may_be = matches!(run.feed_fails, [] | [1]);
    match traced {
        Traced::None => false,
        Traced::Even => may_be && place % 2 == 0,
        Traced::Odd => may_be && place % 2 == 1,
    }
}

/// The events of the session at this place.
fn events_at<'a>(run: &Run<'a>, place: usize) -> &'a [Event<'a>] {
    run.events.get(place).copied().unwrap_or(FULL)
}

/// How the call ends over its sessions: a generator where the word names one, and else a trace or
/// events in memory.
pub fn status_of<K: Sink>(
    rt: &(impl Abort + AllocGlobal),
    run: &Run<'_>,
    traced: Traced,
    out: &mut K,
) -> Status {
    let line = words(rt, run.words);
    let mut feeds: Vec<Option<BoxedFeed>> = Vec::new(rt.alloc());
    let mut place = 0usize;
    for word in feed_names(&line).sessions {
        let events = events_at(run, place);
        let feed: BoxedFeed = if let Some(spec) = read_gen(word.as_bytes()) {
            assert!(rt; spec.count <= 4_000_000);
            Box::new(rt.alloc(), GenFeed::new(spec.seed, spec.count)).expect(rt, "memory")
        } else if is_traced(run, traced, place) {
            Box::new(rt.alloc(), trace(rt, events, run.feed_fails)).expect(rt, "memory")
        } else {
            Box::new(rt.alloc(), feed(rt, events, run.feed_fails)).expect(rt, "memory")
        };
        feeds.push(Some(feed)).expect(rt, "memory");
        place = place.saturating_add(1);
    }
    status_over(rt, run, &mut feeds, out)
}

/// How the call ends over these feeds, of which there is one for each session word.
pub fn status_over<K: Sink>(
    rt: &(impl Abort + AllocGlobal),
    run: &Run<'_>,
    feeds: &mut Vec<Option<BoxedFeed>>,
    out: &mut K,
) -> Status {
    let words = words(rt, run.words);
    let mut config = source(rt, run.config.as_bytes(), run.config_fails);
    let mut book = source(rt, run.book.as_bytes(), run.book_fails);
    let mut pairs = source(rt, run.pairs.as_bytes(), run.pairs_fails);
    let line = words.as_slice();
    let names = feed_names(line).sessions;
    if names.len() != feeds.len() {
        panic!(rt; "a feed for each session word");
    }
    offline(
        rt.alloc(),
        line,
        &mut config,
        &mut book,
        &mut pairs,
        feeds,
        out,
    )
}

/// That the call ends so over these sessions, and that the sink holds its text.
fn ends_over(rt: &(impl Abort + AllocGlobal), run: &Run<'_>, traced: Traced) {
    let mut out = sink(rt, run.write_fails);
    let status = status_of(rt, run, traced, &mut out);
    assert_eq!(rt;
        status,
        run.status,
        "of {:?} over {} {traced:?}",
        run.words, run.book
    );
    assert_eq!(rt;
        out.held(),
        run.text.as_bytes(),
        "of {:?} over {} {traced:?}",
        run.words,
        run.book
    );
}

/// That the call ends so, whichever sessions are told by traces.
pub fn ends(rt: &(impl Abort + AllocGlobal), run: &Run<'_>) {
    ends_over(rt, run, Traced::None);
    ends_over(rt, run, Traced::Even);
    ends_over(rt, run, Traced::Odd);
}

/// That each call ends so.
pub fn end(rt: &(impl Abort + AllocGlobal), runs: &[Run<'_>]) {
    for run in runs {
        ends(rt, run);
    }
}

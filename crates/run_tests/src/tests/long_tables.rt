//! `offline` over a table of pairs that is longer than a table may be.
ghost use Rattle.std.specs.Prelude.{None};

use crate::tests::inputs::{sink, source, words};
use feed_io::{BoxedFeed, MemSource};
use std::process::Abort;
use urpf_base::{Failed, Source};
use urpf_cli::{Object, Status, feed_names, offline};

/// A text in memory, or one that goes on without an end.
#[derive(Drop)]
struct LongSource {
    text: MemSource,
    goes_on: bool,
}

impl Source for LongSource {
    ghost left = { λ _. None };

    ghost faults = { λ s. s.text.schedule.faults };

    fn read(&mut self, buf: &mut [u8]) -> Result<usize, Failed> {
        if self.goes_on {
            return Ok(buf.len());
        }
        self.text.read(buf)
    }
}

/// A source of this text, which may go on.
fn long_source(rt: &(impl Abort + AllocGlobal), text: &str, goes_on: bool) -> LongSource {
    LongSource {
        text: source(rt, text.as_bytes(), &[]),
        goes_on,
    }
}

/// That a run of these words over a table that goes on without an end comes to this.
fn is_over_a_long_table(rt: &(impl Abort + AllocGlobal), line: &[String], status: Status) {
    let mut feeds: Vec<Option<BoxedFeed>> = Vec::new(rt.alloc());
    if feed_names(line).sessions.len() != 0 {
        panic!(rt; "no session words");
    }
    let mut config = long_source(
        rt,
        "interface = [{number = 0, role = \"peer\", mode = \"off\"}]",
        false,
    );
    let mut book = long_source(rt, "", false);
    let mut pairs = long_source(rt, "", true);
    let mut out = sink(rt, &[]);
    let ended = offline(
        rt.alloc(),
        line,
        &mut config,
        &mut book,
        &mut pairs,
        &mut feeds,
        &mut out,
    );
    assert_eq!(rt; ended, status, "of {line:?}");
}

#[test]
fn a_table_of_too_many_octets_is_refused_where_it_is_read(rt: HostRuntime) {
    let too_long = Status::TooLong(Object::Pairs);
    let table = words(&rt, &["offline", "config", "book", "vrp:table"]);
    is_over_a_long_table(&rt, &table, too_long);
    let none = words(&rt, &["offline", "config", "book", "none"]);
    is_over_a_long_table(&rt, &none, Status::Done);
}

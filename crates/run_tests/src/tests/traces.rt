//! Traces in memory of the events that a test tells.
use crate::tests::inputs::{Event, source};
use feed_io::{MemSource, TraceFeed};
use std::process::Abort;

/// A feed over the trace of these events. These reads of it fail, by their numbers from 1.
pub fn trace(
    rt: &(impl Abort + AllocGlobal),
    events: &[Event<'_>],
    fails: &[u64],
) -> TraceFeed<MemSource> {
    let mut octets = Vec::new(rt.alloc());
    for event in events {
        put_event(rt, event, &mut octets);
    }
    TraceFeed::new(source(rt, &octets, fails))
}

/// Appends what a trace has for the event: a number for its kind, and then the octets behind their
/// length, or the seconds. No octets are no event, and neither are too many.
fn put_event(rt: &impl Abort, event: &Event<'_>, trace: &mut Vec<u8>) {
    match event {
        Event::Up => put(rt, &[1], trace),
        Event::Octets(piece) => {
            if let Ok(length) = u16::try_from(piece.len())
                && length > 0
            {
                put(rt, &[2], trace);
                put(rt, &length.to_be_bytes(), trace);
                put(rt, piece, trace);
            }
        }
        Event::Down => put(rt, &[3], trace),
        Event::Elapsed(seconds) => {
            put(rt, &[4], trace);
            put(rt, &seconds.to_be_bytes(), trace);
        }
    }
}

/// Appends these octets.
fn put(rt: &impl Abort, octets: &[u8], trace: &mut Vec<u8>) {
    trace.extend_from_slice(octets).expect(rt, "memory");
}

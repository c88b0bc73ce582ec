//! A feed over a source in the trace format: events one after the other, to the end of the source.
//!
//! Over a broken trace it gives the whole events before the break, then the octets that are there of
//! a broken octets event, and then it fails. After one failure every later call fails.
ghost use Rattle.std.specs.Prelude.{◌≡◌, ◌⊎◌, ◌+◌, ◌-◌, ◌<◌, ◌≤◌, ℕ, [], ◌++◌, length, option_map, take, IfOk, IfSome};
ghost use Rattle.std.specs.Prelude.{IsErr, OnErr, OnOk, Ok, true, false};
ghost use Rattle.std.specs.Io.KnownBytes.{Consumes, IsAtEnd, Keeps};
ghost use Rattle.urpf_base.specs.Faults.{HasCause, Rose};
ghost use Rattle.feed_io.specs.Events.{GivesAtMost, GivesNext};
ghost use Rattle.feed_io.specs.Memory.{counted_up};
ghost use Rattle.feed_io.specs.TraceFeeds.{KeepsCount, Moved, events_left, Stops};
ghost use Rattle.feed_io.specs.Traces.{head_length, owed_head, trace_events};
ghost use Rattle.feed_io.specs.declared.limited.TheConstants as limit;

use crate::fault_count::FaultCount;
use crate::feeds::{Feed, FeedEvent};
use crate::limited::Limited;
use crate::trace_head::{HEAD_OCTETS, Head, HeadEvent, read_head};
use std::marker::Model;
use urpf_base::{Failed, Source};

/// A trace, of which at most 4,398,046,511,104 octets are read. Contracts see it as its source, how
/// many octets were read, those of the next event's head, whether a call failed, and how many did.
#[derive(Drop)]
pub struct TraceFeed<S: Source + Drop> {
    input: Limited<S>,
    /// What was read of the head of the next event.
    head: Head,
    failed: bool,
    faults: FaultCount,
}

impl<S: Source + Drop> Model for TraceFeed<S> {
    ghost use Rattle.feed_io.specs.TraceFeeds.{TraceState, state_code};

    ghost Value = { TraceState S };

    ghost coded = { state_code S.code };

    ghost view = { λ f. record {
      source = f.input.source;
      taken = f.input.taken;
      head = f.head;
      failed = f.failed;
      faults = f.faults;
    } };
}

impl<S: Source + Drop> TraceFeed<S> {
    /// A feed of the events that the source has left. Takes no memory, and reads nothing yet.
    pub fn new(source: S) -> TraceFeed<S>
        ensures left { events_left result.head (S.left result.source) ≡ option_map trace_events (S.left source) }
        ensures source { result.source ≡ source }
        ensures taken { result.taken ≡ 0 }
        ensures head { result.head ≡ [] }
        ensures failed { result.failed ≡ false }
        ensures faults { result.faults ≡ 0 }
    {
        TraceFeed {
            input: Limited::new(source),
            head: Head::new(),
            failed: false,
            faults: FaultCount::new(),
        }
    }
}

impl<S: Source + Drop> Feed for TraceFeed<S> {
    ghost left = { λ f. events_left f.head (S.left f.source) };

    ghost faults = { λ f. f.faults };

    fn next(&mut self, buf: &mut [u8]) -> Result<FeedEvent, Failed>
        requires { 0 < length buf.old }
        ensures bound { GivesAtMost result buf.new }
        ensures events { GivesNext (events_left self.old.head (S.left self.old.source))
            (events_left self.new.head (S.left self.new.source)) result buf.new }
        ensures cause { HasCause self.old.faults self.new.faults result }
        ensures err { OnErr result (self.new.faults ≡ counted_up self.old.faults) }
        // Once it failed, it fails in every later call, and leaves the source alone.
        ensures again { self.old.failed ≡ true → IsErr result }
        ensures alone { self.old.failed ≡ true → (self.new.source ≡ self.old.source)
            × (self.new.taken ≡ self.old.taken) × (self.new.head ≡ self.old.head) }
        ensures fails { OnErr result (self.new.failed ≡ true) }
        ensures goes_on { OnOk result (self.new.failed ≡ false) }
        // It fails only by the source, by the format or the limit, or since it failed before.
        ensures failed { OnErr result (Rose (S.faults self.old.source) (S.faults self.new.source)
            ⊎ (IfSome (S.left self.old.source) (Stops self.old.taken self.old.head)
            ⊎ (self.old.failed ≡ true))) }
        // A failed read is not asked again: it ends the call.
        ensures later { S.faults self.old.source ≤ S.faults self.new.source }
        ensures once { S.faults self.new.source ≤ S.faults self.old.source + 1 }
        ensures kept { OnOk result (S.faults self.new.source ≡ S.faults self.old.source) }
        // All octets that it reads count towards the limit.
        ensures counted { OnOk result (KeepsCount (S.left self.old.source) self.old.taken
            (S.left self.new.source) self.new.taken) }
        ensures grows { self.old.taken ≤ self.new.taken }
        // Where the format or the limit stops it, it fails.
        ensures stops { IfSome (S.left self.old.source) (λ text.
            Stops self.old.taken self.old.head text → IsErr result) }
    {
        if !self.failed {
            if let Ok(event) = read_event(&mut self.input, &mut self.head, buf) {
                return Ok(event);
            }
        }
        self.failed = true;
        Err(self.faults.fail())
    }
}

/// The first event that is left, or a first part of its octets.
fn read_event<S: Source + Drop>(
    input: &mut Limited<S>,
    head: &mut Head,
    buf: &mut [u8],
) -> Result<FeedEvent, Failed>
    requires { 0 < length buf.old }
    ensures bound { GivesAtMost result buf.new }
    ensures events { GivesNext (events_left head.old (S.left input.old.source))
        (events_left head.new (S.left input.new.source)) result buf.new }
    ensures later { S.faults input.old.source ≤ S.faults input.new.source }
    ensures once { S.faults input.new.source ≤ S.faults input.old.source + 1 }
    ensures kept { OnOk result (S.faults input.new.source ≡ S.faults input.old.source) }
    ensures failed { OnErr result (Rose (S.faults input.old.source) (S.faults input.new.source)
        ⊎ IfSome (S.left input.old.source) (Stops input.old.taken head.old)) }
    ensures counted { OnOk result (KeepsCount (S.left input.old.source) input.old.taken
        (S.left input.new.source) input.new.taken) }
    ensures grows { input.old.taken ≤ input.new.taken }
    ensures stops { IfSome (S.left input.old.source) (λ text.
        Stops input.old.taken head.old text → IsErr result) }
{
    let Ok(whole) = fill(input, head) else {
        return Err(Failed);
    };
    if !whole {
        if head.octets().is_empty() {
            return Ok(FeedEvent::End);
        }
        return Err(Failed);
    }
    match read_head(head.octets()) {
        HeadEvent::Malformed => Err(Failed),
        HeadEvent::Up => {
            head.clear();
            Ok(FeedEvent::Up)
        }
        HeadEvent::Octets(count) => {
            let Ok(given) = read_piece(input, count as usize, buf) else {
                return Err(Failed);
            };
            head.owe(count - given as u16);
            Ok(FeedEvent::Octets(given))
        }
        HeadEvent::Down => {
            head.clear();
            Ok(FeedEvent::Down)
        }
        HeadEvent::Elapsed(seconds) => {
            head.clear();
            Ok(FeedEvent::Elapsed(seconds))
        }
    }
}

/// Reads until the head of an event is whole. False where the source ends before.
fn fill<S: Source + Drop>(input: &mut Limited<S>, head: &mut Head) -> Result<bool, Failed>
    ensures moved { Moved (S.left input.old.source) input.old.taken head.old
        (S.left input.new.source) input.new.taken head.new }
    ensures later { S.faults input.old.source ≤ S.faults input.new.source }
    ensures once { S.faults input.new.source ≤ S.faults input.old.source + 1 }
    ensures kept { OnOk result (S.faults input.new.source ≡ S.faults input.old.source) }
    ensures grows { input.old.taken ≤ input.new.taken }
    ensures whole { result ≡ Ok true → length head.new ≡ head_length head.new }
    ensures short { result ≡ Ok false → length head.new < head_length head.new }
    ensures ended { result ≡ Ok false → IsAtEnd (S.left input.new.source) }
    ensures within { result ≡ Ok false → input.new.taken < limit.FILE_OCTETS }
    ensures failed { OnErr result (Rose (S.faults input.old.source) (S.faults input.new.source)
        ⊎ ((limit.FILE_OCTETS ≤ input.new.taken) × (length head.new < head_length head.new))) }
{
    let mut piece = [0u8; HEAD_OCTETS];
    loop {
        let missing = head.missing();
        if missing == 0 {
            return Ok(true);
        }
        let count = input.read(&mut piece[..missing])?;
        if count == 0 {
            return Ok(false);
        }
        head.append(&piece[..count]);
    }
}

/// At least one and at most so many of the octets that come next.
fn read_piece<S: Source + Drop>(
    input: &mut Limited<S>,
    count: usize,
    buf: &mut [u8],
) -> Result<usize, Failed>
    requires room { 0 < length buf.old }
    requires some { 0 < count }
    ensures bound { IfOk result (λ n. (1 ≤ n) × (n ≤ length buf.new) × (n ≤ count)) }
    ensures octets { IfOk result (λ n. Consumes (S.left input.old.source) (S.left input.new.source) (take n buf.new)) }
    ensures more { OnOk result (input.old.taken < limit.FILE_OCTETS) }
    ensures taken { IfOk result (λ n. input.new.taken ≡ input.old.taken + n) }
    ensures rest { OnErr result (Keeps (S.left input.old.source) (S.left input.new.source)) }
    ensures grows { input.old.taken ≤ input.new.taken }
    ensures later { S.faults input.old.source ≤ S.faults input.new.source }
    ensures once { S.faults input.new.source ≤ S.faults input.old.source + 1 }
    ensures kept { OnOk result (S.faults input.new.source ≡ S.faults input.old.source) }
    ensures failed { OnErr result (Rose (S.faults input.old.source) (S.faults input.new.source)
        ⊎ ((limit.FILE_OCTETS ≤ input.old.taken) ⊎ IsAtEnd (S.left input.new.source))) }
{
    let want = count.min(buf.len());
    let given = input.read(&mut buf[..want])?;
    if given == 0 {
        return Err(Failed);
    }
    Ok(given)
}

//! Feeds in memory, for tests and for callers that have their events at hand.
//!
//! They tell the events that they have left. `MemFeed` fails at the calls of a list, `SureFeed`
//! never.
ghost use Rattle.std.specs.Prelude.{◌≡◌, ◌<◌, ◌↔◌, [], ◌∷◌, ◌++◌, length, Contains, IsErr, IsOk, OnErr, OnOk, Some};
ghost use Rattle.urpf_base.specs.Faults.{HasCause};
ghost use Rattle.feed_io.specs.Events as events;
ghost use Rattle.feed_io.specs.Events.{GivesAtMost, GivesNext, IsPiece};
ghost use Rattle.feed_io.specs.Memory.{no_calls, CountsCall};
ghost use Rattle.feed_io.specs.Stored.{event_of, IsEntry};

use crate::feeds::{Feed, FeedEvent};
use crate::memory::SureSource;
use crate::schedule::Schedule;
use std::alloc::Global;
use std::collections::VecDeque;
use std::marker::Model;
use urpf_base::{Failed, OutOfMemory, Source};

/// One event in memory. Octets are at least 1.
#[derive(Drop)]
enum Entry {
    Up,
    Octets(Vec<u8>),
    Down,
    Elapsed(u32),
}

/// Events in memory. No call fails. Contracts see it as the list of the events that are left.
#[derive(Drop)]
pub struct SureFeed {
    alloc: Global,
    /// What is left of the octets of which a part was given.
    piece: SureSource,
    /// The later events.
    entries: VecDeque<Entry>,
}

impl Model for SureFeed {
    ghost use Rattle.std.specs.Prelude.{List, map};
    ghost use Rattle.std.specs.List.{AllByRecursion};
    ghost use Rattle.feed_io.specs.Events.{Event, with_more};

    ghost Value = { List Event };

    ghost use Rattle.feed_io.specs.Stored.{event_of, IsEntry};

    ghost view = { λ f. with_more f.piece (map event_of f.entries.items) };

    ghost invariant = { λ f. AllByRecursion IsEntry f.entries.items };
}

impl SureFeed {
    /// A feed without events. Takes no memory.
    pub fn new(alloc: Global) -> SureFeed
        ensures { result ≡ [] }
    {
        SureFeed {
            alloc,
            piece: SureSource::new(Vec::new(alloc)),
            entries: VecDeque::new(alloc),
        }
    }

    /// Appends that the transport comes up.
    pub fn up(&mut self) -> Result<(), OutOfMemory>
        ensures ok { OnOk result (self.new ≡ self.old ++ events.up ∷ []) }
        ensures err { OnErr result (self.new ≡ self.old) }
    {
        self.append(Entry::Up)
    }

    /// Appends that octets come, from 1 to 65,535 of them.
    pub fn octets(&mut self, piece: &[u8]) -> Result<(), OutOfMemory>
        requires { IsPiece piece.now }
        ensures ok { OnOk result (self.new ≡ self.old ++ events.octets piece.now ∷ []) }
        ensures err { OnErr result (self.new ≡ self.old) }
    {
        match Vec::from_slice(self.alloc, piece) {
            Ok(octets) => self.append(Entry::Octets(octets)),
            Err(_) => Err(OutOfMemory),
        }
    }

    /// Appends that the transport goes down.
    pub fn down(&mut self) -> Result<(), OutOfMemory>
        ensures ok { OnOk result (self.new ≡ self.old ++ events.down ∷ []) }
        ensures err { OnErr result (self.new ≡ self.old) }
    {
        self.append(Entry::Down)
    }

    /// Appends that so many seconds pass.
    pub fn elapsed(&mut self, seconds: u32) -> Result<(), OutOfMemory>
        ensures ok { OnOk result (self.new ≡ self.old ++ events.elapsed seconds ∷ []) }
        ensures err { OnErr result (self.new ≡ self.old) }
    {
        self.append(Entry::Elapsed(seconds))
    }

    /// Appends the event of this entry.
    fn append(&mut self, entry: Entry) -> Result<(), OutOfMemory>
        requires { IsEntry entry }
        ensures ok { OnOk result (self.new ≡ self.old ++ event_of entry ∷ []) }
        ensures err { OnErr result (self.new ≡ self.old) }
    {
        match self.entries.push_back(entry) {
            Ok(()) => Ok(()),
            Err(_) => Err(OutOfMemory),
        }
    }
}

impl Feed for SureFeed {
    ghost left = { λ f. Some f };

    ghost faults = { λ _. 0 };

    fn next(&mut self, buf: &mut [u8]) -> Result<FeedEvent, Failed>
        requires { 0 < length buf.old }
        ensures bound { GivesAtMost result buf.new }
        ensures events { GivesNext (Some self.old) (Some self.new) result buf.new }
        ensures cause { HasCause 0 0 result }
        ensures sure { IsOk result }
    {
        let count = self.piece.read(buf)?;
        if count > 0 {
            return Ok(FeedEvent::Octets(count));
        }
        match self.entries.pop_front() {
            None => Ok(FeedEvent::End),
            Some(Entry::Up) => Ok(FeedEvent::Up),
            Some(Entry::Down) => Ok(FeedEvent::Down),
            Some(Entry::Elapsed(seconds)) => Ok(FeedEvent::Elapsed(seconds)),
            Some(Entry::Octets(octets)) => {
                self.piece = SureSource::new(octets);
                Ok(FeedEvent::Octets(self.piece.read(buf)?))
            }
        }
    }
}

/// Events in memory. The calls of `next` that a list names fail and take nothing.
#[derive(Drop)]
pub struct MemFeed {
    events: SureFeed,
    schedule: Schedule,
}

impl Model for MemFeed {
    ghost use Rattle.feed_io.specs.Memory.{StoredEvents};

    ghost Value = { StoredEvents };

    ghost view = { λ f. record { left = f.events; schedule = f.schedule } };
}

impl MemFeed {
    /// A feed without events. Takes no memory. `fails` holds the numbers of the calls that fail,
    /// from 1.
    pub fn new(alloc: Global, fails: Vec<u64>) -> MemFeed
        ensures events { result.left ≡ [] }
        ensures schedule { result.schedule ≡ no_calls fails.items }
    {
        MemFeed {
            events: SureFeed::new(alloc),
            schedule: Schedule::new(fails),
        }
    }

    /// Appends that the transport comes up.
    pub fn up(&mut self) -> Result<(), OutOfMemory>
        ensures ok { OnOk result (self.new.left ≡ self.old.left ++ events.up ∷ []) }
        ensures err { OnErr result (self.new.left ≡ self.old.left) }
        ensures schedule { self.new.schedule ≡ self.old.schedule }
    {
        self.events.up()
    }

    /// Appends that octets come, from 1 to 65,535 of them.
    pub fn octets(&mut self, piece: &[u8]) -> Result<(), OutOfMemory>
        requires { IsPiece piece.now }
        ensures ok { OnOk result (self.new.left ≡ self.old.left ++ events.octets piece.now ∷ []) }
        ensures err { OnErr result (self.new.left ≡ self.old.left) }
        ensures schedule { self.new.schedule ≡ self.old.schedule }
    {
        self.events.octets(piece)
    }

    /// Appends that the transport goes down.
    pub fn down(&mut self) -> Result<(), OutOfMemory>
        ensures ok { OnOk result (self.new.left ≡ self.old.left ++ events.down ∷ []) }
        ensures err { OnErr result (self.new.left ≡ self.old.left) }
        ensures schedule { self.new.schedule ≡ self.old.schedule }
    {
        self.events.down()
    }

    /// Appends that so many seconds pass.
    pub fn elapsed(&mut self, seconds: u32) -> Result<(), OutOfMemory>
        ensures ok { OnOk result (self.new.left ≡ self.old.left ++ events.elapsed seconds ∷ []) }
        ensures err { OnErr result (self.new.left ≡ self.old.left) }
        ensures schedule { self.new.schedule ≡ self.old.schedule }
    {
        self.events.elapsed(seconds)
    }
}

impl Feed for MemFeed {
    ghost left = { λ f. Some f.left };

    ghost faults = { λ f. f.schedule.faults };

    fn next(&mut self, buf: &mut [u8]) -> Result<FeedEvent, Failed>
        requires { 0 < length buf.old }
        ensures bound { GivesAtMost result buf.new }
        ensures events { GivesNext (Some self.old.left) (Some self.new.left) result buf.new }
        ensures cause { HasCause self.old.schedule.faults self.new.schedule.faults result }
        ensures listed { IsErr result ↔ Contains self.old.schedule.fails self.new.schedule.calls }
        ensures counts { CountsCall self.old.schedule self.new.schedule result }
    {
        self.schedule.call()?;
        self.events.next(buf)
    }
}

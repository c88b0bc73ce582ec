//! Sources and sinks in memory, for tests and for callers that have their octets at hand.
//!
//! They tell what they have left and what they hold. `MemSource` and `MemSink` fail at the calls of
//! a list, `SureSource` and `SureSink` never.
ghost use Rattle.std.specs.Prelude.{◌≡◌, ◌⊎◌, ◌-◌, ◌<◌, ◌↔◌, [], length, vec_capacity, drop, take, min, Contains};
ghost use Rattle.std.specs.Prelude.{IsErr, IfOk, IsOkAnd, Some, None};
ghost use Rattle.std.specs.Io.{ReadsAtMost, WritesAtMost};
ghost use Rattle.std.specs.Io.KnownBytes.{ReadConsumes, WriteAppends};
ghost use Rattle.urpf_base.specs.Faults.{HasCause};
ghost use Rattle.feed_io.specs.Memory.{no_calls, CountsCall};

use crate::schedule::Schedule;
use std::marker::Model;
use urpf_base::{Failed, Sink, Source};

/// Octets in memory. No read fails.
#[derive(Drop)]
pub struct SureSource {
    octets: Vec<u8>,
    at: usize,
}

impl Model for SureSource {
    ghost use Rattle.std.specs.Prelude.{ℕ, ◌≤◌, List, drop, vec_len};

    ghost Value = { List ℕ };

    ghost view = { λ s. drop s.at s.octets.items };

    ghost invariant = { λ s. s.at ≤ vec_len s.octets };
}

impl SureSource {
    pub fn new(octets: Vec<u8>) -> SureSource
        ensures { result ≡ octets.items }
    {
        SureSource { octets, at: 0 }
    }
}

impl Source for SureSource {
    ghost left = { λ s. Some s };

    ghost faults = { λ _. 0 };

    fn read(&mut self, buf: &mut [u8]) -> Result<usize, Failed>
        requires { 0 < length buf.old }
        ensures bound { ReadsAtMost result buf.new }
        ensures octets { ReadConsumes (Some self.old) (Some self.new) result buf.new }
        ensures cause { HasCause 0 0 result }
        ensures whole { IsOkAnd result (λ n. n ≡ min (length buf.new) (length self.old)) }
    {
        let count = buf.len().min(self.octets.len() - self.at);
        let end = self.at + count;
        buf[..count].copy_from_slice(&self.octets[self.at..end]);
        self.at = end;
        Ok(count)
    }
}

/// Octets in memory. The calls of `read` that a list names fail and take nothing.
#[derive(Drop)]
pub struct MemSource {
    octets: SureSource,
    schedule: Schedule,
}

impl Model for MemSource {
    ghost use Rattle.feed_io.specs.Memory.{StoredText};

    ghost Value = { StoredText };

    ghost view = { λ s. record { left = s.octets; schedule = s.schedule } };
}

impl MemSource {
    /// A source of these octets. `fails` holds the numbers of the calls that fail, from 1.
    pub fn new(octets: Vec<u8>, fails: Vec<u64>) -> MemSource
        ensures octets { result.left ≡ octets.items }
        ensures schedule { result.schedule ≡ no_calls fails.items }
    {
        MemSource {
            octets: SureSource::new(octets),
            schedule: Schedule::new(fails),
        }
    }
}

impl Source for MemSource {
    ghost left = { λ s. Some s.left };

    ghost faults = { λ s. s.schedule.faults };

    fn read(&mut self, buf: &mut [u8]) -> Result<usize, Failed>
        requires { 0 < length buf.old }
        ensures bound { ReadsAtMost result buf.new }
        ensures octets { ReadConsumes (Some self.old.left) (Some self.new.left) result buf.new }
        ensures cause { HasCause self.old.schedule.faults self.new.schedule.faults result }
        ensures whole { IfOk result (λ n. n ≡ min (length buf.new) (length self.old.left)) }
        ensures listed { IsErr result ↔ Contains self.old.schedule.fails self.new.schedule.calls }
        ensures counts { CountsCall self.old.schedule self.new.schedule result }
    {
        self.schedule.call()?;
        self.octets.read(buf)
    }
}

/// A sink that writes into room that its maker gave, and takes no memory of its own. The calls of
/// `write` that a list names fail, and so does one that finds no room.
#[derive(Drop)]
pub struct MemSink {
    taken: Vec<u8>,
    room: usize,
    schedule: Schedule,
}

impl Model for MemSink {
    ghost use Rattle.std.specs.Prelude.{◌≤◌, vec_len, vec_capacity};
    ghost use Rattle.feed_io.specs.Memory.{StoredOutput};

    ghost Value = { StoredOutput };

    ghost view = { λ s. record { held = s.taken.items; room = s.room; schedule = s.schedule } };

    ghost invariant = { λ s. (vec_len s.taken ≤ s.room) × (s.room ≤ vec_capacity s.taken) };
}

impl MemSink {
    /// A sink that takes as many octets as `room`, which is empty, has capacity for. `fails` holds
    /// the numbers of the calls that fail, from 1.
    pub fn new(room: Vec<u8>, fails: Vec<u64>) -> MemSink
        requires { room.items ≡ [] }
        ensures held { result.held ≡ [] }
        ensures room { result.room ≡ vec_capacity room }
        ensures schedule { result.schedule ≡ no_calls fails.items }
    {
        let capacity = room.capacity();
        MemSink {
            taken: room,
            room: capacity,
            schedule: Schedule::new(fails),
        }
    }

    /// What the sink took so far.
    pub fn held(&self) -> &[u8]
        ensures { result.now ≡ self.now.held }
    {
        &self.taken
    }
}

impl Sink for MemSink {
    ghost held = { λ s. Some s.held };

    ghost faults = { λ s. s.schedule.faults };

    fn write(&mut self, piece: &[u8]) -> Result<usize, Failed>
        ensures bound { WritesAtMost result piece.now }
        ensures some { 0 < length piece.now → IfOk result (λ n. 0 < n) }
        ensures octets { WriteAppends (Some self.old.held) (Some self.new.held) result piece.now }
        ensures cause { HasCause self.old.schedule.faults self.new.schedule.faults result }
        ensures whole { IfOk result (λ n. n ≡ min (length piece.now) (self.old.room - length self.old.held)) }
        ensures refused { IsErr result ↔ (Contains self.old.schedule.fails self.new.schedule.calls
            ⊎ (self.old.room ≡ length self.old.held)) }
        ensures counts { CountsCall self.old.schedule self.new.schedule result }
        ensures room { self.new.room ≡ self.old.room }
    {
        self.schedule.call()?;
        let count = piece.len().min(self.room - self.taken.len());
        if self.taken.len() == self.room {
            return Err(self.schedule.fail());
        }
        match self.taken.extend_from_slice(&piece[..count]) {
            Ok(()) => Ok(count),
            Err(_) => unreachable!(),
        }
    }
}

/// A sink that takes every piece whole and keeps nothing.
#[derive(Drop)]
pub struct SureSink;

impl SureSink {
    /// A sink that needs no room.
    pub fn new() -> SureSink
        ensures faults { ⟦<SureSink as Sink>⟧.faults result ≡ 0 }
    {
        SureSink
    }
}

impl Sink for SureSink {
    ghost held = { λ _. None };

    ghost faults = { λ _. 0 };

    fn write(&mut self, piece: &[u8]) -> Result<usize, Failed>
        ensures bound { WritesAtMost result piece.now }
        ensures some { 0 < length piece.now → IfOk result (λ n. 0 < n) }
        ensures octets { WriteAppends None None result piece.now }
        ensures cause { HasCause 0 0 result }
        ensures whole { result ≡ Ok (length piece.now) }
    {
        Ok(piece.len())
    }
}

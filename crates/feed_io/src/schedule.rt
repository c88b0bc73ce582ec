//! Which calls of a source, a sink or a feed in memory fail.
ghost use Rattle.std.specs.Prelude.{◌≡◌, ◌≤◌, ◌↔◌, Contains, IsErr};
ghost use Rattle.urpf_base.specs.Faults.{HasCause};
ghost use Rattle.feed_io.specs.Memory.{counted_up, no_calls, CountsCall};

use crate::fault_count::FaultCount;
use std::marker::Model;
use urpf_base::Failed;

/// The numbers of the calls that fail, counted from 1, and the calls and faults so far.
#[derive(Drop)]
pub struct Schedule {
    fails: Vec<u64>,
    calls: u64,
    faults: FaultCount,
}

impl Model for Schedule {
    ghost use Rattle.feed_io.specs.Memory as memory;

    ghost Value = { memory.Schedule };

    ghost view = { λ s. record { fails = s.fails.items; calls = s.calls; faults = s.faults } };
}

impl Schedule {
    /// No call was made yet.
    pub fn new(fails: Vec<u64>) -> Schedule
        ensures { result ≡ no_calls fails.items }
    {
        Schedule {
            fails,
            calls: 0,
            faults: FaultCount::new(),
        }
    }

    /// Counts one call, which fails where its number is listed.
    pub fn call(&mut self) -> Result<(), Failed>
        ensures listed { IsErr result ↔ Contains self.old.fails self.new.calls }
        ensures counts { CountsCall self.old self.new result }
        ensures cause { HasCause self.old.faults self.new.faults result }
    {
        self.calls = self.calls.saturating_add(1);
        if self.fails.contains(&self.calls) {
            return Err(self.fail());
        }
        Ok(())
    }

    /// Counts one fault, and tells it.
    pub fn fail(&mut self) -> Failed
        ensures faults { self.new.faults ≡ counted_up self.old.faults }
        ensures later { self.old.faults ≤ self.new.faults }
        ensures fails { self.new.fails ≡ self.old.fails }
        ensures calls { self.new.calls ≡ self.old.calls }
    {
        self.faults.fail()
    }
}

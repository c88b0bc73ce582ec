//! How often a call of the outside failed.
ghost use Rattle.std.specs.Prelude.{◌≡◌, ◌≤◌, IsErr, MatchResult, Ok};
ghost use Rattle.urpf_base.specs.Faults.{HasCause};
ghost use Rattle.feed_io.specs.Memory.{counted_up};

use std::io;
use std::marker::Model;
use urpf_base::Failed;

/// A count of 64 bits, which stands still at its last value. Contracts see it as its number.
#[derive(Drop)]
pub struct FaultCount {
    number: u64,
}

impl Model for FaultCount {
    ghost use Rattle.std.specs.Prelude.{ℕ};

    ghost Value = { ℕ };

    ghost view = { λ c. c.number };
}

impl FaultCount {
    /// No call failed yet.
    pub fn new() -> FaultCount
        ensures { result ≡ 0 }
    {
        FaultCount { number: 0 }
    }

    /// Counts one fault, and tells it.
    pub fn fail(&mut self) -> Failed
        ensures count { self.new ≡ counted_up self.old }
        ensures later { self.old ≤ self.new }
    {
        self.number = self.number.saturating_add(1);
        Failed
    }

    /// What a call of the outside answered. An error is counted once, and a success not at all.
    pub fn counted(&mut self, answer: io::Result<usize>) -> Result<usize, Failed>
        ensures same { MatchResult answer (λ n. result ≡ Ok n) (λ _. IsErr result) }
        ensures cause { HasCause self.old self.new result }
    {
        match answer {
            Ok(count) => Ok(count),
            Err(_) => Err(self.fail()),
        }
    }
}

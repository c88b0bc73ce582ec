//! The generator: a feed without a source, for runs of a known size. It gives the messages of one
//! session, which announces so many prefixes, and makes them one at a time without memory.
ghost use Rattle.std.specs.Prelude.{◌≡◌, ◌+◌, ◌<◌, ◌≤◌, ◌∷◌, drop, length, IfOk, IsOk, Some};
ghost use Rattle.urpf_base.specs.Faults.{HasCause};
ghost use Rattle.feed_io.specs.Events as events;
ghost use Rattle.feed_io.specs.Events.{GivesAtMost, GivesMost, GivesNext};
ghost use Rattle.feed_io.specs.Generated as spec;
ghost use Rattle.feed_io.specs.Generated.{generated_events};

use crate::feeds::{Feed, FeedEvent};
use crate::few_octets::{FewOctets, Unsent};
use crate::messages::{block_count, block_update, keepalive, opening};
use std::marker::Model;
use urpf_base::Failed;

/// The most prefixes that a generator announces.
pub const MOST_PREFIXES: u32 = 4_000_000;

/// The generator. No call fails. Contracts see it as the list of the events that are left.
#[derive(Drop)]
pub struct GenFeed {
    seed: u32,
    count: u32,
    /// What is left of the message of which a part was given.
    unsent: Unsent,
    /// How many events were begun: the transport that comes up, and the messages.
    begun: u32,
}

impl Model for GenFeed {
    ghost use Rattle.std.specs.Prelude.{◌≤◌, List, drop};
    ghost use Rattle.feed_io.specs.Events.{Event, with_more};
    ghost use Rattle.feed_io.specs.Generated.{generated_events};

    ghost Value = { List Event };

    ghost view = { λ f. with_more f.unsent (drop f.begun (generated_events f.seed f.count)) };

    ghost invariant = { λ f. f.count ≤ 4000000 };
}

impl GenFeed {
    /// A feed that announces so many prefixes, with origins that follow from the seed. Takes no
    /// memory.
    pub fn new(seed: u32, count: u32) -> GenFeed
        requires { count ≤ 4000000 }
        ensures { result ≡ generated_events seed count }
    {
        GenFeed {
            seed,
            count,
            unsent: Unsent::new(FewOctets::new()),
            begun: 0,
        }
    }
}

impl Feed for GenFeed {
    ghost left = { λ f. Some f };

    ghost faults = { λ _. 0 };

    fn next(&mut self, buf: &mut [u8]) -> Result<FeedEvent, Failed>
        requires { 0 < length buf.old }
        ensures bound { GivesAtMost result buf.new }
        ensures events { GivesNext (Some self.old) (Some self.new) result buf.new }
        ensures cause { HasCause 0 0 result }
        ensures most { IfOk result (λ event. GivesMost event buf.new self.old) }
        ensures sure { IsOk result }
    {
        let given = self.unsent.give(buf);
        if given > 0 {
            return Ok(FeedEvent::Octets(given));
        }
        let begun = self.begun;
        if begun >= 3 + block_count(self.count) {
            return Ok(FeedEvent::End);
        }
        self.begun = begun + 1;
        if begun == 0 {
            return Ok(FeedEvent::Up);
        }
        self.unsent = Unsent::new(message(self.seed, self.count, begun - 1));
        Ok(FeedEvent::Octets(self.unsent.give(buf)))
    }
}

/// The message of this number, counted from 0: the OPEN, the KEEPALIVE, or an UPDATE.
fn message(seed: u32, count: u32, number: u32) -> FewOctets
    requires within { count ≤ 4000000 }
    requires some { number < 2 + spec.block_count count }
    ensures some { 0 < length result }
    ensures next { drop (number + 1) (generated_events seed count)
        ≡ events.octets result ∷ drop (number + 2) (generated_events seed count) }
{
    if number == 0 {
        return opening();
    }
    if number == 1 {
        return keepalive();
    }
    block_update(seed, count, number - 2)
}

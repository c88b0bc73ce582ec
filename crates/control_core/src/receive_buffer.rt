//! Octets of a feed that are not framed yet: a feed fills them in, and the framer takes them from
//! the front.
ghost use Rattle.std.specs.Prelude.{◌≡◌, ◌<◌, ◌≤◌, ℕ, List, [], drop, length};
ghost use Rattle.urpf_base.specs.Faults.{HasCause};
ghost use Rattle.control_core.specs.FeedCalls.{Fills, FitsRoom};

use feed_io::{Feed, FeedEvent};
use std::marker::Model;
use urpf_base::Failed;

/// The most octets that a feed is asked for at once.
const ROOM: usize = 4096;

/// At most so many octets. Contracts see them as a list.
#[derive(Drop)]
pub struct ReceiveBuffer {
    octets: [u8; ROOM],
    from: usize,
    to: usize,
}

impl Model for ReceiveBuffer {
    ghost use Rattle.std.specs.Prelude.{ℕ, ◌≤◌, List, drop, take};

    ghost Value = { List ℕ };

    ghost view = { λ w. drop w.from (take w.to w.octets) };

    ghost invariant = { λ w. (w.from ≤ w.to) × (w.to ≤ 4096) };
}

impl ReceiveBuffer {
    /// No octets.
    pub fn new() -> ReceiveBuffer
        ensures { result ≡ [] }
    {
        ReceiveBuffer {
            octets: [0; ROOM],
            from: 0,
            to: 0,
        }
    }

    /// The octets.
    pub fn octets(&self) -> &[u8]
        ensures { result.now ≡ self.now }
    {
        &self.octets[self.from..self.to]
    }

    /// Lets go of so many octets in front.
    pub fn advance(&mut self, count: usize)
        requires { count ≤ length self.old }
        ensures { self.new ≡ drop count self.old }
    {
        self.from += count;
    }

    /// Lets go of all octets.
    pub fn clear(&mut self)
        ensures { self.new ≡ [] }
    {
        self.from = 0;
        self.to = 0;
    }

    /// Asks the feed for the next event, with room for so many octets at most. The octets that it
    /// gives take the place of those that were there.
    pub fn fill<F: Feed>(&mut self, feed: &mut F, room: u64) -> Result<FeedEvent, Failed>
        requires { 0 < room }
        ensures fills { Fills (F.left feed.old) (F.left feed.new) result self.new }
        ensures room { FitsRoom result room }
        ensures cause { HasCause (F.faults feed.old) (F.faults feed.new) result }
    {
        self.from = 0;
        self.to = 0;
        let most = room.min(ROOM as u64) as usize;
        let event = feed.next(&mut self.octets[..most]);
        if let Ok(FeedEvent::Octets(count)) = event {
            self.to = count;
        }
        event
    }
}

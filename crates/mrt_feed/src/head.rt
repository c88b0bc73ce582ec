//! The head of a record, as far as it was read: the header, and of a record of a session what stands
//! before the later octets of its message.
ghost use Rattle.std.specs.Prelude.{◌≡◌, ◌-◌, ◌≤◌, ◌++◌, [], length};
ghost use Rattle.mrt_feed.specs.Records as spec;
ghost use Rattle.mrt_feed.specs.Records.{IsHead};

use crate::layout::head_length;
use feed_io::FewOctets;
use std::marker::Model;

/// A front of a head, or a whole one. Contracts see it as the list of its octets.
#[derive(Drop)]
pub struct Head {
    buffer: FewOctets,
}

impl Model for Head {
    ghost use Rattle.std.specs.Prelude.{ℕ, List};
    ghost use Rattle.mrt_feed.specs.Records.{IsHead};

    ghost Value = { List ℕ };

    ghost view = { λ h. h.buffer };

    ghost invariant = { λ h. IsHead h.buffer };
}

impl Head {
    /// Nothing was read yet.
    pub fn new() -> Head
        ensures { result ≡ [] }
    {
        Head {
            buffer: FewOctets::new(),
        }
    }

    /// The octets so far.
    pub fn octets(&self) -> &[u8]
        ensures octets { result.now ≡ self.now }
        ensures head { IsHead result.now }
    {
        self.buffer.octets()
    }

    /// How many octets are missing until the head is whole.
    pub fn missing(&self) -> usize
        ensures missing { result ≡ spec.head_length self.now - length self.now }
        ensures head { IsHead self.now }
        ensures within { result ≤ 79 }
    {
        let octets = self.octets();
        head_length(octets) - octets.len()
    }

    /// Takes further octets.
    pub fn append(&mut self, piece: &[u8])
        requires { IsHead (self.old ++ piece.now) }
        ensures { self.new ≡ self.old ++ piece.now }
    {
        self.buffer.append(piece);
    }

    /// Becomes nothing.
    pub fn clear(&mut self)
        ensures { self.new ≡ [] }
    {
        self.buffer.clear();
    }
}

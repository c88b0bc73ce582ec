//! The first octets of a piece of a source.
ghost use Rattle.std.specs.Prelude.{◌≡◌, ◌+◌, ◌≤◌, [], ◌++◌, length, take};
ghost use Rattle.forward_worker.specs.declared.octet_front.TheConstants as limit;

use std::marker::Model;

/// How many octets of a packet are looked at.
pub const FRONT_OCTETS: usize = 60;

/// The first octets of a piece, at most 60. Contracts see the list.
#[derive(Drop)]
pub struct OctetFront {
    octets: [u8; FRONT_OCTETS],
    len: usize,
}

impl Model for OctetFront {
    ghost use Rattle.std.specs.Prelude.{ℕ, ◌≤◌, List, take};

    ghost Value = { List ℕ };

    ghost view = { λ f. take f.len f.octets };

    ghost invariant = { λ f. f.len ≤ 60 };
}

impl OctetFront {
    /// No octet yet.
    pub fn new() -> OctetFront
        ensures { result ≡ [] }
    {
        OctetFront {
            octets: [0; FRONT_OCTETS],
            len: 0,
        }
    }

    /// The octets so far.
    pub fn octets(&self) -> &[u8]
        ensures octets { result.now ≡ self.now }
        ensures within { length result.now ≤ 60 }
    {
        &self.octets[..self.len]
    }

    /// Takes further octets, as far as there is room.
    pub fn append(&mut self, piece: &[u8])
        ensures { self.new ≡ take limit.FRONT_OCTETS (self.old ++ piece.now) }
    {
        let room = FRONT_OCTETS - self.octets().len();
        let count = piece.len().min(room);
        self.put(&piece[..count]);
    }

    /// Takes further octets, for which there is room.
    fn put(&mut self, piece: &[u8])
        requires { length self.old + length piece.now ≤ 60 }
        ensures { self.new ≡ self.old ++ piece.now }
    {
        let end = self.len + piece.len();
        self.octets[self.len..end].copy_from_slice(piece);
        self.len = end;
    }
}

//! A few octets in a buffer of fixed size, so that they never want memory.
ghost use Rattle.std.specs.Prelude.{◌≡◌, ◌+◌, ◌<◌, ◌≤◌, ◌↔◌, [], ◌++◌, length, take, min, IsTrue};

use std::marker::Model;

/// The most octets that a buffer holds: a message of the generator has so many, as has the head of a
/// record of a recording, and one less of a frame decide the record of its packet.
pub const FEW_OCTETS: usize = 79;

/// At most 79 octets. Contracts see them as a list.
#[derive(Drop)]
pub struct FewOctets {
    octets: [u8; FEW_OCTETS],
    len: usize,
}

impl Model for FewOctets {
    ghost use Rattle.std.specs.Prelude.{ℕ, ◌≤◌, List, take};

    ghost Value = { List ℕ };

    ghost view = { λ o. take o.len o.octets };

    ghost invariant = { λ o. o.len ≤ 79 };
}

impl FewOctets {
    /// No octets.
    pub fn new() -> FewOctets
        ensures { result ≡ [] }
    {
        FewOctets {
            octets: [0; FEW_OCTETS],
            len: 0,
        }
    }

    /// Appends the piece, for which there is room.
    pub fn append(&mut self, piece: &[u8])
        requires { length self.old + length piece.now ≤ 79 }
        ensures { self.new ≡ self.old ++ piece.now }
    {
        let end = self.len + piece.len();
        self.octets[self.len..end].copy_from_slice(piece);
        self.len = end;
    }

    /// The octets so far.
    pub fn octets(&self) -> &[u8]
        ensures octets { result.now ≡ self.now }
        ensures within { length result.now ≤ 79 }
    {
        &self.octets[..self.len]
    }

    /// No octets any more.
    pub fn clear(&mut self)
        ensures { self.new ≡ [] }
    {
        self.len = 0;
    }
}

/// Octets that are given in pieces. Contracts see them as the list of those that are left.
#[derive(Drop)]
pub struct Unsent {
    octets: FewOctets,
    at: usize,
}

impl Model for Unsent {
    ghost use Rattle.std.specs.Prelude.{ℕ, ◌≤◌, List, drop, length};

    ghost Value = { List ℕ };

    ghost view = { λ u. drop u.at u.octets };

    ghost invariant = { λ u. u.at ≤ length u.octets };
}

impl Unsent {
    /// All of the octets are left.
    pub fn new(octets: FewOctets) -> Unsent
        ensures { result ≡ octets }
    {
        Unsent { octets, at: 0 }
    }

    /// How many octets are left.
    pub fn len(&self) -> usize
        ensures { result ≡ length self.now }
    {
        self.octets.octets().len() - self.at
    }

    /// Whether no octet is left.
    pub fn is_empty(&self) -> bool
        ensures { IsTrue result ↔ (self.now ≡ []) }
    {
        self.at == self.octets.octets().len()
    }

    /// Copies the first octets that are left into the buffer and takes them away, as many as there
    /// is room for.
    pub fn give(&mut self, buf: &mut [u8]) -> usize
        ensures octets { self.old ≡ take result buf.new ++ self.new }
        ensures count { result ≡ min (length buf.new) (length self.old) }
    {
        let octets = self.octets.octets();
        let count = buf.len().min(octets.len() - self.at);
        let end = self.at + count;
        buf[..count].copy_from_slice(&octets[self.at..end]);
        self.at = end;
        count
    }
}

//! One line of output, in a buffer of fixed size, so that a line never wants memory.
ghost use Rattle.std.specs.Prelude.{◌≡◌, ◌+◌, ◌≤◌, [], ◌++◌, length};

use std::marker::Model;

/// The most octets of a line.
pub const LINE_OCTETS: usize = 8192;

/// At most 8,192 octets. Contracts see them as a list.
#[derive(Drop)]
pub struct Line {
    octets: [u8; LINE_OCTETS],
    len: usize,
}

impl Model for Line {
    ghost use Rattle.std.specs.Prelude.{ℕ, ◌≤◌, List, take};

    ghost Value = { List ℕ };

    ghost view = { λ l. take l.len l.octets };

    ghost invariant = { λ l. l.len ≤ 8192 };
}

impl Line {
    /// The empty line.
    pub fn new() -> Line
        ensures { result ≡ [] }
    {
        Line {
            octets: [0; LINE_OCTETS],
            len: 0,
        }
    }

    /// Appends the piece, for which there is room.
    pub fn push(&mut self, piece: &[u8])
        requires { length self.old + length piece.now ≤ LINE_OCTETS }
        ensures { self.new ≡ self.old ++ piece.now }
    {
        let end = self.len + piece.len();
        self.octets[self.len..end].copy_from_slice(piece);
        self.len = end;
    }

    /// How many octets still fit.
    pub fn spare(&self) -> usize
        ensures { result + length self.now ≡ LINE_OCTETS }
    {
        LINE_OCTETS - self.len
    }

    /// The octets so far.
    pub fn bytes(&self) -> &[u8]
        ensures { result.now ≡ self.now }
    {
        &self.octets[..self.len]
    }
}

//! The marks of a run: where it was at each publication.
ghost use Rattle.std.specs.Prelude.{◌≡◌, List, [], ◌∷◌, ◌++◌, OnOk, OnErr};
ghost use Rattle.control_core.specs.Worlds.{Position, last_number};

use std::alloc::Global;
use std::marker::Model;
use urpf_base::OutOfMemory;

/// A publication: its number, how many edits came before it, and how many items each session had
/// taken. Contracts see it as a position.
#[derive(Drop)]
pub struct Mark {
    number: u64,
    edits: u64,
    items: Vec<u64>,
}

impl Model for Mark {
    ghost use Rattle.control_core.specs.Worlds.{Position};

    ghost Value = { Position };

    ghost view = { λ m. record { number = m.number; edits = m.edits; items = m.items.items } };
}

impl Mark {
    /// The mark of this number, after so many edits and items.
    pub(crate) fn new(number: u64, edits: u64, items: Vec<u64>) -> Mark
        ensures { result ≡ record { number = number; edits = edits; items = items.items } }
    {
        Mark {
            number,
            edits,
            items,
        }
    }

    /// The number of the publication, from 0.
    pub fn number(&self) -> u64
        ensures { result ≡ self.now.number }
    {
        self.number
    }

    /// How many edits came before it.
    pub fn edits(&self) -> u64
        ensures { result ≡ self.now.edits }
    {
        self.edits
    }

    /// How many items each session had taken, from session 0 on.
    pub fn items(&self) -> &[u64]
        ensures { result.now ≡ self.now.items }
    {
        &self.items
    }
}

/// Marks, in the order that they were made in. Contracts see the list.
#[derive(Drop)]
pub struct Marks {
    items: Vec<Mark>,
}

impl Model for Marks {
    ghost use Rattle.std.specs.Prelude.{List};
    ghost use Rattle.control_core.specs.Worlds.{Position};

    ghost Value = { List Position };

    ghost view = { λ m. m.items.items };
}

impl Marks {
    /// No mark. It takes no memory.
    pub fn new(alloc: Global) -> Marks
        ensures { result ≡ [] }
    {
        Marks {
            items: Vec::new(alloc),
        }
    }

    /// Appends a mark. Where memory is refused nothing is changed.
    pub fn push(&mut self, mark: Mark) -> Result<(), OutOfMemory>
        ensures ok { OnOk result (self.new ≡ self.old ++ mark ∷ []) }
        ensures err { OnErr result (self.new ≡ self.old) }
    {
        let Ok(()) = self.items.push(mark) else {
            return Err(OutOfMemory);
        };
        Ok(())
    }

    /// Takes the last mark back, where there is one.
    pub(crate) fn take_back(&mut self)
        ensures { (marks : List Position) (mark : Position) → self.old ≡ marks ++ mark ∷ [] → self.new ≡ marks }
    {
        self.items.pop();
    }

    /// The number of the last mark.
    pub(crate) fn last_number(&self) -> u64
        ensures { result ≡ last_number self.now }
    {
        number_of_last(&self.items)
    }

    /// The marks.
    pub fn items(&self) -> &[Mark]
        ensures { result.now ≡ self.now }
    {
        &self.items
    }
}

/// The number of the last of the marks, and 0 where there is none.
fn number_of_last(marks: &[Mark]) -> u64
    ensures { result ≡ last_number marks.now }
{
    let mut number = 0;
    for mark in marks {
        number = mark.number();
    }
    number
}

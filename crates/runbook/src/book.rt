//! A runbook, and reading one: the octets of a text come in, and its lines go out, each with its
//! number, or the first line that is refused.
ghost use Rattle.std.specs.Prelude.{◌≡◌, ◌⊎◌, ℕ, ◌+◌, ◌^◌, ◌<◌, ◌≤◌, List, [], ◌∷◌, ◌++◌, length, slice_get, IfOk};
ghost use Rattle.std.specs.Prelude.{OnOk, OnErr};
ghost use Rattle.std.specs.Prelude.{Ok, Err, Some};
ghost use Rattle.runbook.specs.declared.lines.BookKind.{BookKind};
ghost use Rattle.runbook.specs.declared.lines.BookLine.{BookLine};
ghost use Rattle.runbook.specs.Says.{rounds_after};
ghost use Rattle.runbook.specs.Book.{IsBook, IsFirstFault, OpensTaken};

use crate::cutting::first_line;
use crate::lines::{BookKind, BookLine};
use crate::reading::read_line;
use router_config::Config;
use std::alloc::Global;
use std::marker::Model;
use urpf_base::OutOfMemory;

/// The lines of a runbook, each with its number in the text. Contracts see them as a list.
#[derive(Drop)]
pub struct Book {
    lines: Vec<(u32, BookLine)>,
}

impl Model for Book {
    ghost use Rattle.std.specs.Prelude.{ℕ, List};
    ghost use Rattle.runbook.specs.declared.lines.BookLine.{BookLine};

    ghost Value = { List (ℕ × BookLine) };

    ghost view = { λ b. b.lines.items };
}

/// The first refused line: its number, from 1, and why it is refused.
#[derive(Clone, Copy, Debug, PartialEq, Eq)]
pub struct BookFault {
    pub line: u32,
    pub kind: BookKind,
}

/// Why no runbook was read.
#[derive(Clone, Copy, Debug, PartialEq, Eq)]
pub enum ReadBook {
    /// A line is refused.
    Bad(BookFault),
    /// Memory could not be had.
    OutOfMemory,
}

impl Book {
    fn new(alloc: Global) -> Book
        ensures { result ≡ [] }
    {
        Book {
            lines: Vec::new(alloc),
        }
    }

    /// Puts a line at the end.
    fn push(&mut self, number: u32, line: BookLine) -> Result<(), OutOfMemory>
        ensures ok { OnOk result (self.new ≡ self.old ++ (number, line) ∷ []) }
        ensures err { OnErr result (self.new ≡ self.old) }
    {
        let Ok(()) = self.lines.push((number, line)) else {
            return Err(OutOfMemory);
        };
        Ok(())
    }

    /// How many lines there are. Lines without words are not counted.
    pub fn len(&self) -> usize
        ensures { result ≡ length self.now }
    {
        self.lines.len()
    }

    /// Line `k`, counted from 0, with its number in the text, which counts from 1.
    pub fn line(&self, k: usize) -> (u32, BookLine)
        requires { k < length self.now }
        ensures { slice_get self.now k ≡ Some result }
    {
        self.lines[k]
    }
}

/// Reads the runbook of a configured router, of fewer than 2^32 octets. `Bad` names the first line
/// that is refused.
pub fn read_book(alloc: Global, text: &[u8], config: &Config) -> Result<Book, ReadBook>
    requires { length text.now < 2 ^ 32 }
    // What is read is the book of the text, and the fault is that of its first refused line.
    ensures found { IfOk result (IsBook config.now text.now) }
    ensures bad { (number : ℕ) (kind : BookKind)
        → result ≡ Err (ReadBook.Bad (record { line = number; kind = kind }))
        → IsFirstFault config.now text.now number kind }
    // Where the text has a book it is read, unless memory runs out, and so with a fault.
    ensures only { (rows : List (ℕ × BookLine)) → IsBook config.now text.now rows
        → (result ≡ Ok rows) ⊎ (result ≡ Err ReadBook.OutOfMemory) }
    ensures only_bad { (number : ℕ) (kind : BookKind) → IsFirstFault config.now text.now number kind
        → (result ≡ Err (ReadBook.Bad (record { line = number; kind = kind })))
        ⊎ (result ≡ Err ReadBook.OutOfMemory) }
    // There are no more lines than octets.
    ensures short { IfOk result (λ book. length book ≤ length text.now) }
    // Memory can run out only once a line was taken.
    ensures memory { result ≡ Err ReadBook.OutOfMemory → OpensTaken config.now text.now }
{
    let mut book = Book::new(alloc);
    let mut rest = text;
    let mut number = 0;
    let mut rounds = 0;
    while !rest.is_empty() {
        let (line, after) = first_line(rest);
        number += 1;
        rest = after;
        let Some(judged) = read_line(config, rounds, line) else {
            continue;
        };
        let line = match judged {
            Ok(line) => line,
            Err(kind) => return Err(ReadBook::Bad(BookFault { line: number, kind })),
        };
        rounds = rounds_after(rounds, &line);
        let Ok(()) = book.push(number, line) else {
            return Err(ReadBook::OutOfMemory);
        };
    }
    Ok(book)
}

/// How many rounds are ended once the line is taken.
fn rounds_after(rounds: u32, line: &BookLine) -> u32
    requires { rounds + 1 < 2 ^ 32 }
    ensures { result ≡ rounds_after rounds line.now }
{
    match *line {
        BookLine::Round => rounds + 1,
        _ => rounds,
    }
}

//! A pass: the reader of one worker.
ghost use Rattle.std.specs.Prelude.{◌≡◌, ◌⊎◌, [], Some, IfSome, IfNone, length};
ghost use mathlib.Core.List.{IsPrefix};
ghost use Rattle.urpf_base.specs.Faults.{Rose};
ghost use Rattle.cover_table.specs.Judging.{judge};
ghost use Rattle.cover_table.specs.Snapshots.{fold};
ghost use Rattle.epoch_publish.specs.History.{AreNumbered};

use crate::checker::{Checker, raised};
use crate::history::{Front, Naming};
use crate::note::Note;
use crate::published::Published;
use core::mem::replace_with;
use crossbeam_utils::rule::Unruled;
use left_right::reader::Reader;
use std::marker::Model;
use urpf_base::{Addr, Verdict};

/// A reader of what is published.
pub type Seat<J> = Reader<Published<J>, (), Unruled>;

/// A worker's own reader of what is published, with the batches that it saw or was told of.
#[derive(Drop)]
pub struct Pass<J: Naming> {
    reader: Seat<J>,
    front: Front<J>,
    refused: u64,
}

impl<J: Naming> Model for Pass<J> {
    ghost use Rattle.epoch_publish.specs.Publications.{Known};

    ghost Value = { Known };

    ghost view = { λ p. record { identity = J.book; opening = J.opening; list = p.front; count = p.refused } };
}

impl<J: Naming> Pass<J> {
    /// A pass that knows of these batches.
    pub(crate) fn new(reader: Seat<J>, front: Front<J>) -> Pass<J>
        ensures identity { (result.identity ≡ J.book) × (result.opening ≡ J.opening) }
        ensures list { (result.list ≡ front) × (result.count ≡ 0) }
    {
        Pass {
            reader,
            front,
            refused: 0,
        }
    }

    /// Takes a note in, which is of the same publications: from now on the batches are the longer list,
    /// which both lists begin.
    pub fn learn(&mut self, note: Note<J>)
        ensures identity { note.identity ≡ self.old.identity }
        ensures kept { (self.new.identity ≡ self.old.identity) × (self.new.opening ≡ self.old.opening) }
        ensures longer { (self.new.list ≡ self.old.list) ⊎ (self.new.list ≡ note.list) }
        ensures known { IsPrefix self.old.list self.new.list }
        ensures told { IsPrefix note.list self.new.list }
        ensures count { self.new.count ≡ self.old.count }
    {
        self.front = self.front.longer(&note.front);
    }

    /// The verdict on a packet by what is published, and the number of that publication, as of
    /// `Checker::check`. The batches that it is by begin with all that this pass saw or was told of.
    /// It waits for nobody and takes no memory. None where the publisher is gone.
    pub fn check(&mut self, iface: u16, source: Option<Addr>) -> Option<(u64, Verdict)>
        ensures kept { (self.new.identity ≡ self.old.identity) × (self.new.opening ≡ self.old.opening) }
        ensures grows { IsPrefix self.old.list self.new.list }
        ensures numbered { AreNumbered self.new.list }
        ensures number { IfSome result (λ a. a.0 ≡ length self.new.list) }
        ensures verdict { IfSome result (λ a. a.1 ≡ judge (fold self.new.opening self.new.list) iface source) }
        ensures answered { IfSome result (λ _. self.new.count ≡ self.old.count) }
        ensures refused { IfNone result (Rose self.old.count self.new.count × (self.new.list ≡ self.old.list)) }
    {
        let asked = (&self.front, iface, source);
        let answer = replace_with(
            &mut self.reader,
            asked,
            |reader, asked| -> (Seat<J>, Option<(Front<J>, Verdict)>)
                ensures grows { IfSome result.1 (λ a. IsPrefix asked.entry.0.now a.0) }
                ensures verdict { IfSome result.1 (λ a. a.1 ≡ judge (fold J.opening a.0) asked.entry.1 asked.entry.2) }
            { enter(reader, asked.0, asked.1, asked.2) },
        );
        match answer {
            Some((front, verdict)) => {
                self.front = front;
                Some((self.front.len(), verdict))
            }
            None => {
                let _number = self.front.len();
                self.refused = raised(self.refused);
                None
            }
        }
    }

    /// The number of the last batch that this pass saw or was told of, which is 0 where there is none.
    pub fn number(&self) -> u64
        ensures number { result ≡ length self.now.list }
        ensures numbered { AreNumbered self.now.list }
    {
        self.front.len()
    }
}

/// Takes the copy that is shown, judges by it and leaves it. None where the publisher is gone, or
/// more is known than is shown.
fn enter<J: Naming>(
    reader: Seat<J>,
    known: &Front<J>,
    iface: u16,
    source: Option<Addr>,
) -> (Seat<J>, Option<(Front<J>, Verdict)>)
    ensures grows { IfSome result.1 (λ a. IsPrefix known.now a.0) }
    ensures verdict { IfSome result.1 (λ a. a.1 ≡ judge (fold J.opening a.0) iface source) }
{
    match reader.enter_as::<Unruled>() {
        Ok(reading) => {
            let answer = reading.get().judge(known, iface, source);
            (reading.leave(), answer)
        }
        Err(reader) => (reader, None),
    }
}

impl<J: Naming> Checker for Pass<J> {
    ghost identity = { λ p. Some p.identity };

    ghost opening = { λ p. p.opening };

    ghost list = { λ p. p.list };

    ghost count = { λ p. p.count };

    fn check(&mut self, iface: u16, source: Option<Addr>) -> Option<(u64, Verdict)> {
        Pass::check(self, iface, source)
    }

    fn number(&self) -> u64 {
        Pass::number(self)
    }
}

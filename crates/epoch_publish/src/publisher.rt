//! Who publishes batches.
ghost use Rattle.std.specs.Prelude.{◌≡◌, ◌+◌, ◌<◌, ◌≤◌, ◌++◌, ◌∷◌, [], true, false, IfOk, IsErr, IsTrue, MatchResult, length, vec_len, vec_capacity};
ghost use Rattle.std.specs.List.{AllByRecursion};
ghost use Rattle.epoch_publish.specs.History.{AreNumbered};
ghost use Rattle.epoch_publish.specs.Publications.{NameSame, fresh};

use crate::history::{Book, Front, Naming, Opened};
use crate::note::Note;
use crate::pass::Pass;
use crate::passes::Passes;
use crate::published::{Event, Published};
use core::mem::replace_with;
use cover_table::Batch;
use crossbeam_utils::rule::Unruled;
use left_right::Absorb;
use left_right::reader::Factory;
use left_right::writer::Writer;
use std::alloc::Global;
use std::marker::Model;
use std::sync::Wait;
use urpf_base::OutOfMemory;

/// Who publishes batches, one by one. Contracts see whose publications these are, the interfaces
/// before the first one, all that was published, and whether a publication was refused. `end` gives
/// it up.
pub struct Publisher<J: Naming>
where
    Published<J>: Absorb<Event<J>, State = [Batch; 0]>,
{
    writer: Writer<Published<J>, Event<J>, (), Unruled>,
    book: Book<J>,
    front: Front<J>,
    refused: bool,
}

impl<J: Naming> Model for Publisher<J>
where
    Published<J>: Absorb<Event<J>, State = [Batch; 0]>,
{
    ghost use Rattle.std.specs.Prelude.{◌≡◌, false};
    ghost use Rattle.epoch_publish.specs.Publications.{Publishing};

    ghost Value = { Publishing };

    ghost view = { λ p. record { identity = J.book; opening = J.opening; list = p.front; refused = p.refused } };

    ghost invariant = { λ p. p.refused ≡ false → p.writer.desk.shown.value ≡ p.front };
}

impl<J: Naming> Publisher<J>
where
    Published<J>: Absorb<Event<J>, State = [Batch; 0]>,
{
    /// Publishes number 0, which has no cell, and hands out passes, of which there may be fewer than
    /// so many. The history is used up: it is that of this publisher and its passes alone.
    pub fn start(
        alloc: Global,
        opened: Opened,
        passes: u32,
    ) -> Result<(Publisher<J>, Passes<J>), OutOfMemory>
        requires named { (opened.identity ≡ J.book) × (opened.opening ≡ J.opening) }
        requires passes { 0 < passes }
        ensures publisher { IfOk result (λ t. t.0 ≡ record { identity = opened.identity; opening = opened.opening; list = []; refused = false }) }
        ensures passes { IfOk result (λ t. AllByRecursion (λ p. p ≡ fresh opened.identity opened.opening) t.1) }
        ensures most { IfOk result (λ t. length t.1 ≤ passes) }
    {
        let Ok(mut items) = Vec::with_capacity(alloc, passes as usize) else {
            return Err(OutOfMemory);
        };
        let (book, front, kinds) = opened.named::<J>();
        let copy = kinds.copied()?;
        let first = Published::new(alloc, kinds, front.again());
        let second = Published::new(alloc, copy, front.again());
        let Ok(writer) = Writer::new(alloc, first, second, passes as usize) else {
            return Err(OutOfMemory);
        };
        seat_all(writer.factory(), &front, passes, &mut items);
        let publisher = Publisher {
            writer,
            book,
            front,
            refused: false,
        };
        Ok((publisher, Passes::of(items)))
    }

    /// The number of the last publication, which is 0 before the first one.
    pub fn number(&self) -> u64
        ensures number { result ≡ length self.now.list }
        ensures numbered { AreNumbered self.now.list }
    {
        self.front.len()
    }

    /// A note of what is published. It takes no memory.
    pub fn tell(&mut self) -> Note<J>
        ensures same { self.new ≡ self.old }
        ensures identity { (result.identity ≡ self.old.identity) × (result.opening ≡ self.old.opening) }
        ensures list { result.list ≡ self.old.list }
    {
        Note {
            front: self.front.again(),
        }
    }

    /// Publishes the next batch whole, and answers its number. It may wait for passes to leave the
    /// copy that is written. A publication that is refused for want of memory leaves what is
    /// published as it was, and so does each one after it.
    pub fn publish<R: Wait>(&mut self, rt: &R, batch: Batch) -> Result<u64, OutOfMemory>
        requires next { batch.number ≡ length self.old.list + 1 }
        requires interfaces { NameSame batch.kinds self.old.opening }
        ensures kept { (self.new.identity ≡ self.old.identity) × (self.new.opening ≡ self.old.opening) }
        ensures published { MatchResult result (λ n. self.new.list ≡ self.old.list ++ batch ∷ []) (λ _. self.new.list ≡ self.old.list) }
        ensures number { IfOk result (λ n. n ≡ batch.number) }
        ensures marked { MatchResult result (λ _. self.new.refused ≡ self.old.refused) (λ _. self.new.refused ≡ true) }
        ensures after_refusal { self.old.refused ≡ true → IsErr result }
    {
        if self.refused {
            return Err(OutOfMemory);
        }
        self.refused = true;
        let number = batch.number;
        let mut front = self.front.again();
        if !front.add(&self.book, &batch) {
            return Err(OutOfMemory);
        }
        let event = Event::new(batch, front.again());
        if self.writer.append(event).is_err() {
            return Err(OutOfMemory);
        }
        if !show(&mut self.writer, rt, &front) {
            return Err(OutOfMemory);
        }
        self.front = front;
        self.refused = false;
        Ok(number)
    }

    /// Takes the publisher apart. It may wait for passes to leave.
    pub fn end<R: Wait>(self, rt: &R) {
        let Publisher {
            writer,
            book: _book,
            front: _front,
            refused: _,
        } = self;
        drop(writer.take(rt));
    }
}

/// Makes a pass for each place of a reader, until one is refused.
fn seat_all<J: Naming>(
    places: &Factory<Published<J>, (), Unruled>,
    front: &Front<J>,
    passes: u32,
    items: &mut Vec<Pass<J>>,
)
    requires first { front.now ≡ [] }
    requires room { (vec_len items.old ≡ 0) × (passes ≤ vec_capacity items.old) }
    ensures fresh { AllByRecursion (λ p. p ≡ fresh J.book J.opening) items.new.items }
    ensures most { vec_len items.new ≤ passes }
{
    for _ in 0..passes {
        let Ok(reader) = places.reader() else {
            return;
        };
        items.push_reserved(Pass::new(reader, front.again()));
    }
}

/// Shows readers the copy that took the batch over, and answers whether that is the history so far.
fn show<J: Naming, R: Wait>(
    writer: &mut Writer<Published<J>, Event<J>, (), Unruled>,
    rt: &R,
    front: &Front<J>,
) -> bool
where
    Published<J>: Absorb<Event<J>, State = [Batch; 0]>,
    ensures { IsTrue result → writer.new.desk.shown.value ≡ front.now }
{
    let shown = replace_with(writer, rt, |writer, rt| writer.publish_as::<Unruled, R>(rt));
    shown.is_ok() && writer.published().shows(front)
}

//! What is published: a snapshot, beside the beginning of the history that it is the fold of, and
//! how it takes the next batch over.
ghost use Rattle.std.specs.Prelude.{◌≡◌, ◌++◌, ◌∷◌, [], IfSome, IsTrue, MatchResult};
ghost use mathlib.Core.List.{IsPrefix};
ghost use Rattle.cover_table.specs.Judging.{judge};
ghost use Rattle.cover_table.specs.Snapshots.{fold};
ghost use Rattle.epoch_publish.specs.History.{EndIn};

use crate::history::{Front, Naming};
use cover_table::{Batch, Snapshot};
use left_right::Absorb;
use router_config::Kinds;
use std::alloc::{AllocError, Global};
use std::marker::Model;
use urpf_base::{Addr, OutOfMemory, Verdict};

/// What readers take: the batches so far, and the snapshot that took them over. Contracts see the
/// batches.
#[derive(Drop)]
pub struct Published<J: Naming> {
    snapshot: Snapshot,
    front: Front<J>,
}

impl<J: Naming> Model for Published<J> {
    ghost use Rattle.std.specs.Prelude.{◌≡◌, List};
    ghost use Rattle.cover_table.specs.declared.batch.Batch.{Batch};
    ghost use Rattle.cover_table.specs.Snapshots.{fold};

    ghost Value = { List Batch };

    ghost view = { λ p. p.front };

    ghost invariant = { λ p. p.snapshot ≡ fold J.opening p.front };
}

/// One batch, with the history up to it. Contracts see the batches up to it.
#[derive(Drop)]
pub struct Event<J: Naming> {
    batch: Batch,
    front: Front<J>,
}

impl<J: Naming> Model for Event<J> {
    ghost use Rattle.std.specs.Prelude.{List};
    ghost use Rattle.cover_table.specs.declared.batch.Batch.{Batch};
    ghost use Rattle.epoch_publish.specs.History.{EndIn};

    ghost Value = { List Batch };

    ghost view = { λ e. e.front };

    ghost invariant = { λ e. EndIn e.front e.batch };
}

impl<J: Naming> Event<J> {
    pub(crate) fn new(batch: Batch, front: Front<J>) -> Event<J>
        requires { EndIn front batch }
        ensures { result ≡ front }
    {
        Event { batch, front }
    }
}

impl<J: Naming> Published<J> {
    /// What is there before the first publication.
    pub(crate) fn new(alloc: Global, kinds: Kinds, front: Front<J>) -> Published<J>
        requires opening { kinds ≡ J.opening }
        requires first { front ≡ [] }
        ensures { result ≡ [] }
    {
        Published {
            snapshot: Snapshot::new(alloc, kinds),
            front,
        }
    }

    /// The batches, which begin with those that are known, and the verdict by all of them. None where
    /// more are known.
    pub(crate) fn judge(
        &self,
        known: &Front<J>,
        iface: u16,
        source: Option<Addr>,
    ) -> Option<(Front<J>, Verdict)>
        ensures grows { IfSome result (λ a. IsPrefix known.now a.0) }
        ensures verdict { IfSome result (λ a. a.1 ≡ judge (fold J.opening a.0) iface source) }
    {
        if self.front.len() < known.len() {
            return None;
        }
        self.front.after(known);
        Some((self.front.again(), self.snapshot.check(iface, source)))
    }

    /// Whether these are the batches.
    pub(crate) fn shows(&self, front: &Front<J>) -> bool
        ensures { IsTrue result → self.now ≡ front.now }
    {
        if self.front.len() != front.len() {
            return false;
        }
        self.front.after(front);
        true
    }

    /// Takes the next batch over. Where memory is refused nothing is changed.
    fn take_over(&mut self, event: &Event<J>) -> Result<(), OutOfMemory>
        ensures { MatchResult result (λ _. self.new ≡ event.now) (λ _. self.new ≡ self.old) }
    {
        let (known, next) = (self.front.len(), event.front.len());
        if next <= known || next - known != 1 {
            return Err(OutOfMemory);
        }
        event.front.after(&self.front);
        self.snapshot.absorb(&event.batch)?;
        self.front = event.front.again();
        Ok(())
    }
}

impl<J: Naming> Absorb<Event<J>> for Published<J> {
    // A clause reads an array as a list, of any length.
    type State = [Batch; 0];

    ghost state = { λ p. p };

    ghost applied = { λ batches event. event };

    fn absorb_first(&mut self, event: &Event<J>, _other: &Published<J>) -> Result<(), AllocError> {
        match self.take_over(event) {
            Ok(()) => Ok(()),
            Err(_) => Err(AllocError),
        }
    }
}

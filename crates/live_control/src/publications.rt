//! Where the publications of a live run go: to a snapshot of the control's own, and to the passes.
ghost use Rattle.std.specs.Prelude.{◌≡◌, ◌<◌, ◌≤◌, [], IfOk, length};
ghost use Rattle.std.specs.List.{AllByRecursion};
ghost use Rattle.cover_table.specs.Judging.{judge};
ghost use Rattle.epoch_publish.specs.Publications.{fresh};

use cover_table::{Batch, Snapshot};
use epoch_publish::{Event, Naming, Note, Opened, Passes, Published, Publisher};
use feed_io::Gate;
use left_right::Absorb;
use run_lines::Outlet;
use std::alloc::Global;
use std::marker::Model;
use std::sync::Wait;
use urpf_base::{Addr, OutOfMemory, Verdict};

/// What is lent to a publication: leave to wait for passes, and who is told of it.
#[derive(Drop)]
pub struct Aid<'a, R, G> {
    pub rt: &'a R,
    pub gate: &'a G,
}

/// A snapshot that takes each batch over, and the publisher that it is published by behind that.
pub struct Publications<J: Naming>
where
    Published<J>: Absorb<Event<J>, State = [Batch; 0]>,
{
    snapshot: Snapshot,
    publisher: Publisher<J>,
    ghost opened: { publisher.opening ≡ J.opening },
}

impl<J: Naming> Model for Publications<J>
where
    Published<J>: Absorb<Event<J>, State = [Batch; 0]>,
{
    ghost use Rattle.std.specs.Coded.{codes};
    ghost use Rattle.cover_table.specs.Tables.{cells_code};
    ghost use Rattle.live_control.specs.Standings.{PublicationState};

    ghost Value = { PublicationState };

    ghost coded = { Prim.hlevel (codes, cells_code) };

    ghost view = { λ p. record { shown = p.snapshot; batches = p.publisher.list } };
}

impl<J: Naming> Publications<J>
where
    Published<J>: Absorb<Event<J>, State = [Batch; 0]>,
{
    /// Nothing is published yet; the snapshot is one of the interfaces before the first publication.
    /// There may be fewer passes than so many.
    pub(crate) fn start(
        alloc: Global,
        snapshot: Snapshot,
        opened: Opened,
        passes: u32,
    ) -> Result<(Publications<J>, Passes<J>), OutOfMemory>
        requires named { (opened.identity ≡ J.book) × (opened.opening ≡ J.opening) }
        requires passes { 0 < passes }
        ensures shown { IfOk result (λ t. t.0.shown ≡ snapshot) }
        ensures batches { IfOk result (λ t. t.0.batches ≡ []) }
        ensures passes { IfOk result (λ t. AllByRecursion (λ p. p ≡ fresh opened.identity opened.opening) t.1) }
        ensures most { IfOk result (λ t. length t.1 ≤ passes) }
    {
        match Publisher::start(alloc, opened, passes) {
            Ok((publisher, passes)) => Ok((
                Publications {
                    snapshot,
                    publisher,
                },
                passes,
            )),
            Err(OutOfMemory) => Err(OutOfMemory),
        }
    }

    /// A note of all that was published.
    pub(crate) fn tell(&mut self) -> Note<J>
        ensures same { self.new ≡ self.old }
        ensures told { result.list ≡ self.old.batches }
    {
        self.publisher.tell()
    }

    /// The number of the last publication, 0 before the first one.
    pub(crate) fn number(&self) -> u64
        ensures { result ≡ length self.now.batches }
    {
        self.publisher.number()
    }

    /// The verdict of the snapshot.
    pub(crate) fn judge(&self, iface: u16, source: Option<Addr>) -> Verdict
        ensures { result ≡ judge self.now.shown iface source }
    {
        self.snapshot.check(iface, source)
    }

    /// Gives the publisher up. It may wait for passes to leave.
    pub(crate) fn end<R: Wait>(self, rt: &R) {
        let Publications {
            snapshot: _snapshot,
            publisher,
        } = self;
        publisher.end(rt);
    }
}

impl<'a, J: Naming, R: Wait, G: Gate> Outlet<Aid<'a, R, G>> for Publications<J>
where
    Published<J>: Absorb<Event<J>, State = [Batch; 0]>,
{
    ghost use Rattle.std.specs.Prelude.{Some};
    ghost use Rattle.live_control.specs.Standings.{IsWhole};

    ghost shown = { λ p. p.shown };

    ghost batches = { λ p. Some p.batches };

    ghost sound = { IsWhole J.opening };

    fn take_over(&mut self, aid: &Aid<'a, R, G>, batch: Batch) -> Result<(), OutOfMemory> {
        if let Err(OutOfMemory) = self.snapshot.absorb(&batch) {
            return Err(OutOfMemory);
        }
        let number = batch.number;
        aid.gate.before_publish(number);
        let published = self.publisher.publish(aid.rt, batch);
        aid.gate.after_publish(number);
        match published {
            Ok(_) => Ok(()),
            Err(OutOfMemory) => Err(OutOfMemory),
        }
    }

    fn snapshot(&self) -> &Snapshot {
        &self.snapshot
    }
}

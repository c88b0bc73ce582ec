//! The control of a live run.
ghost use Rattle.std.specs.Prelude.{◌≡◌, ℕ, ◌<◌, ◌≤◌, ◌^◌, [], ◌∷◌, Err, List, length, IfErr, IfOk, OnErr, OnOk, slice_range};
ghost use Rattle.std.specs.List.{AllByRecursion};
ghost use mathlib.Core.List.{IsPrefix};
ghost use Rattle.std.specs.Io.KnownBytes.{Appends};
ghost use Rattle.urpf_base.specs.Faults.{CountsFault};
ghost use Rattle.urpf_base.specs.declared.sessions.SessionConfig.{SessionConfig};
ghost use Rattle.cover_table.specs.Snapshots as snapshots;
ghost use Rattle.epoch_publish.specs.Publications.{fresh};
ghost use Rattle.runbook.specs.Book.{AreConfiguredFor};
ghost use Rattle.runbook.specs.declared.lines.BookLine.{BookLine};
ghost use Rattle.control_core.specs.Controls.{IsOpened, first_mark};
ghost use Rattle.control_core.specs.declared.limits.RunFault.{RunFault};
ghost use Rattle.run_lines.specs.Inputs.{pairs_in};
ghost use Rattle.run_lines.specs.RunText.{AreTotals, head_text};
ghost use Rattle.run_lines.specs.Runs.{CountEach, NamesSession, TookFront, run_limits};
ghost use Rattle.live_rounds.specs.Parts.{IsSound, slots_in};
ghost use Rattle.live_control.specs.Standings.{IsReady, Ran, Stopped};

use crate::publications::{Aid, Publications};
use control_core::{Control, RunFault};
use cover_table::Batch;
use epoch_publish::{Event, Naming, Note, Opened, Passes, Published};
use feed_io::{BoxedFeed, Feed, Gate};
use left_right::Absorb;
use live_rounds::Part;
use roa_irr::Pairs;
use router_config::Config;
use rpf_plain::PlainEngine;
use run_lines::{Totals, open_control, open_run, take_lines};
use runbook::Book;
use std::alloc::Global;
use std::marker::Model;
use std::sync::Wait;
use urpf_base::{Addr, OutOfMemory, Sink, Verdict};

/// The sessions of a configuration, what was published of them, and how many rounds were ended. The
/// gate is told of each publication. Contracts see where it stands.
pub struct LiveControl<'g, J: Naming, G>
where
    Published<J>: Absorb<Event<J>, State = [Batch; 0]>,
{
    control: Control<PlainEngine>,
    publications: Publications<J>,
    rounds: u64,
    gate: &'g G,
}

impl<'g, J: Naming, G> Model for LiveControl<'g, J, G>
where
    Published<J>: Absorb<Event<J>, State = [Batch; 0]>,
{
    ghost use Rattle.std.specs.Coded.{codes};
    ghost use Rattle.adj_rib.specs.Routes.{routes_code};
    ghost use Rattle.cover_table.specs.Tables.{cells_code};
    ghost use Rattle.live_rounds.specs.Parts.{Standing};

    ghost Value = { Standing };

    ghost coded = { Prim.hlevel (codes, routes_code, cells_code) };

    ghost view = { λ c. record {
      control = c.control;
      shown = c.publications.shown;
      batches = c.publications.batches;
      kinds = J.opening;
      rounds = c.rounds;
    } };
}

impl<'g, J: Naming, G: Gate> LiveControl<'g, J, G>
where
    Published<J>: Absorb<Event<J>, State = [Batch; 0]>,
{
    /// The control of the configured sessions at the opening, with the pairs of the table where there
    /// is one, how much there is, and passes of the history, of which there may be fewer than so many.
    pub fn start(
        alloc: Global,
        config: Config,
        pairs: &Option<Pairs>,
        opened: Opened,
        passes: u32,
        gate: &'g G,
    ) -> Result<(LiveControl<'g, J, G>, Passes<J>, Totals), OutOfMemory>
        requires named { (opened.identity ≡ J.book) × (opened.opening ≡ J.opening) }
        requires interfaces { opened.opening ≡ config.interfaces }
        requires passes { 0 < passes }
        ensures opened { IfOk result (λ t. IsOpened (record { settings = config; pairs = pairs_in pairs.now }) run_limits t.0.control) }
        ensures shown { IfOk result (λ t. t.0.shown ≡ snapshots.opening config.interfaces) }
        ensures none { IfOk result (λ t. (t.0.batches ≡ []) × (t.0.kinds ≡ config.interfaces) × (t.0.rounds ≡ 0)) }
        ensures ready { (book : List (ℕ × BookLine)) → AreConfiguredFor config book → length book < 2 ^ 32
            → length config.sessions ≤ 128 → IfOk result (λ t. IsReady book 0 (length config.sessions) t.0) }
        ensures sound { IfOk result (λ t. IsSound J.opening t.0) }
        ensures passes { IfOk result (λ t. AllByRecursion (λ p. p ≡ fresh opened.identity opened.opening) t.1) }
        ensures most { IfOk result (λ t. length t.1 ≤ passes) }
        ensures totals { IfOk result (λ t. AreTotals config pairs.now t.2) }
    {
        let (control, snapshot, totals) = match open_control(alloc, config, pairs) {
            Ok(opened) => opened,
            Err(OutOfMemory) => return Err(OutOfMemory),
        };
        match Publications::start(alloc, snapshot, opened, passes) {
            Ok((publications, passes)) => {
                let live = LiveControl {
                    control,
                    publications,
                    rounds: 0,
                    gate,
                };
                Ok((live, passes, totals))
            }
            Err(OutOfMemory) => Err(OutOfMemory),
        }
    }

    /// Offers the run line, and the line of publication 0, before any other one is made.
    pub fn open<K: Sink>(&self, totals: &Totals, out: &mut K) -> Result<(), RunFault>
        requires { (sessions : List SessionConfig) × (self.now.control.marks ≡ first_mark sessions ∷ []) × (length sessions ≤ 128) }
        ensures ok { (sessions : List SessionConfig) → self.now.control.marks ≡ first_mark sessions ∷ []
            → OnOk result (Appends (K.held out.old) (K.held out.new) (head_text totals.now sessions)) }
        ensures err { IfErr result (λ fault. fault ≡ RunFault.WriteFault) }
        ensures front { (sessions : List SessionConfig) → self.now.control.marks ≡ first_mark sessions ∷ []
            → OnErr result (TookFront (λ text. text ≡ head_text totals.now sessions) (K.held out.old) (K.held out.new)) }
        ensures sink { CountsFault (result ≡ Err RunFault.WriteFault) (K.faults out.old) (K.faults out.new) }
    {
        open_run(totals, self.control.marks(), out)
    }

    /// Runs the lines of the book from line `from` on, up to line `upto`, which is not run. Lines are
    /// counted from 0.
    pub fn run_lines<R: Wait, K: Sink>(
        &mut self,
        rt: &R,
        book: &Book,
        from: usize,
        upto: usize,
        feeds: &mut Vec<Option<BoxedFeed>>,
        out: &mut K,
    ) -> Result<(), RunFault>
        requires range { (from ≤ upto) × (upto ≤ length book.now) }
        requires ready { IsReady book.now from (length feeds.old.items) self.old }
        requires sound { IsSound J.opening self.old }
        ensures ran { OnOk result (Ran (slice_range book.now from upto)
            self.old (slots_in ⟦<BoxedFeed as Feed>⟧.left feeds.old.items) (K.held out.old)
            self.new (slots_in ⟦<BoxedFeed as Feed>⟧.left feeds.new.items) (K.held out.new)) }
        ensures stopped { IfErr result (λ fault. Stopped fault (slice_range book.now from upto)
            self.old (slots_in ⟦<BoxedFeed as Feed>⟧.left feeds.old.items) (K.held out.old)
            self.new (slots_in ⟦<BoxedFeed as Feed>⟧.left feeds.new.items) (K.held out.new)) }
        ensures ready { OnOk result (IsReady book.now upto (length feeds.new.items) self.new) }
        ensures sound { OnOk result (IsSound J.opening self.new) }
        ensures names { IfErr result (NamesSession (length self.old.control.peers)) }
        ensures peers { length self.new.control.peers ≡ length self.old.control.peers }
        ensures grows { IsPrefix self.old.batches self.new.batches }
        ensures feeds { CountEach ⟦<BoxedFeed as Feed>⟧.faults (λ s. result ≡ Err (RunFault.ReadFault s)) feeds.old.items feeds.new.items }
        ensures sink { CountsFault (result ≡ Err RunFault.WriteFault) (K.faults out.old) (K.faults out.new) }
    {
        let aid = Aid {
            rt,
            gate: self.gate,
        };
        take_lines(
            &mut self.control,
            &mut self.publications,
            &aid,
            &mut self.rounds,
            book,
            from,
            upto,
            feeds,
            out,
        )
    }

    /// Gives the control up. It may wait for passes to leave.
    pub fn end<R: Wait>(self, rt: &R) {
        let LiveControl {
            control: _control,
            publications,
            rounds: _,
            gate: _,
        } = self;
        publications.end(rt);
    }
}

impl<'g, J: Naming, G: Gate> Part<J> for LiveControl<'g, J, G>
where
    Published<J>: Absorb<Event<J>, State = [Batch; 0]>,
{
    ghost use Rattle.live_control.specs.Standings.{IsReady, Ran, Stopped};

    ghost state = { λ c. c };

    ghost ready = { IsReady };

    ghost ran = { Ran };

    ghost stopped = { Stopped };

    fn run<R: Wait, K: Sink>(
        &mut self,
        rt: &R,
        book: &Book,
        from: usize,
        upto: usize,
        feeds: &mut Vec<Option<BoxedFeed>>,
        out: &mut K,
    ) -> Result<(), RunFault> {
        self.run_lines(rt, book, from, upto, feeds, out)
    }

    fn tell(&mut self) -> Note<J> {
        self.publications.tell()
    }

    fn number(&self) -> u64 {
        self.publications.number()
    }

    fn judge(&self, iface: u16, source: Option<Addr>) -> (u64, Verdict) {
        (
            self.publications.number(),
            self.publications.judge(iface, source),
        )
    }
}

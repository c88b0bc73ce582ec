//! The control of a live run, as its rounds see it.
ghost use Rattle.std.specs.Prelude.{◌≡◌, ◌≤◌, length, Err, IfErr, OnOk, slice_range};
ghost use mathlib.Core.List.{IsPrefix};
ghost use Rattle.urpf_base.specs.Faults.{CountsFault};
ghost use Rattle.cover_table.specs.Judging.{judge};
ghost use Rattle.cover_table.specs.Snapshots.{fold};
ghost use Rattle.control_core.specs.declared.limits.RunFault.{RunFault};
ghost use Rattle.run_lines.specs.Runs.{CountEach, NamesSession};
ghost use Rattle.live_rounds.specs.Parts.{IsSound, slots_in};

use control_core::RunFault;
use epoch_publish::{Naming, Note};
use feed_io::{BoxedFeed, Feed};
use runbook::Book;
use std::sync::Wait;
use urpf_base::{Addr, Sink, Verdict};

/// A control that runs the lines of a runbook over feeds, publishes to the passes of a history, and
/// judges by all that it published. Contracts see where it stands, when lines may be run, and what
/// lines do. The feeds and the sink are lent to each call.
pub trait Part<J: Naming> {
    ghost use Rattle.std.specs.Prelude.{ℕ, List};
    ghost use Rattle.runbook.specs.declared.lines.BookLine.{BookLine};
    ghost use Rattle.control_core.specs.declared.limits.RunFault.{RunFault};
    ghost use Rattle.live_rounds.specs.Parts.{Running, Standing};

    /// Where the control stands.
    ghost state: { Self → Standing };

    /// The lines of this book from this one on may be run over so many feeds.
    ghost ready: { List (ℕ × BookLine) → ℕ → ℕ → Standing → Type 0 };

    /// What lines do that were run to their end.
    ghost ran: { Running };

    /// What lines do that this fault stops.
    ghost stopped: { RunFault → Running };

    /// Runs these lines of the book.
    fn run<R: Wait, K: Sink>(
        &mut self,
        rt: &R,
        book: &Book,
        from: usize,
        upto: usize,
        feeds: &mut Vec<Option<BoxedFeed>>,
        out: &mut K,
    ) -> Result<(), RunFault>
        requires range { (from ≤ upto) × (upto ≤ length book.now) }
        requires ready { ready book.now from (length feeds.old.items) (state self.old) }
        requires sound { IsSound J.opening (state self.old) }
        ensures ran { OnOk result (ran (slice_range book.now from upto)
            (state self.old) (slots_in ⟦<BoxedFeed as Feed>⟧.left feeds.old.items) (K.held out.old)
            (state self.new) (slots_in ⟦<BoxedFeed as Feed>⟧.left feeds.new.items) (K.held out.new)) }
        ensures stopped { IfErr result (λ fault. stopped fault (slice_range book.now from upto)
            (state self.old) (slots_in ⟦<BoxedFeed as Feed>⟧.left feeds.old.items) (K.held out.old)
            (state self.new) (slots_in ⟦<BoxedFeed as Feed>⟧.left feeds.new.items) (K.held out.new)) }
        ensures names { IfErr result (NamesSession (length (state self.old).control.peers)) }
        ensures feeds { CountEach ⟦<BoxedFeed as Feed>⟧.faults (λ s. result ≡ Err (RunFault.ReadFault s)) feeds.old.items feeds.new.items }
        ensures sink { CountsFault (result ≡ Err RunFault.WriteFault) (K.faults out.old) (K.faults out.new) }
        ensures peers { length (state self.new).control.peers ≡ length (state self.old).control.peers }
        ensures ready { OnOk result (ready book.now upto (length feeds.new.items) (state self.new)) }
        ensures sound { OnOk result (IsSound J.opening (state self.new)) }
        ensures grows { OnOk result (IsPrefix (state self.old).batches (state self.new).batches) };

    /// A note of all that was published.
    fn tell(&mut self) -> Note<J>
        ensures same { state self.new ≡ state self.old }
        ensures told { result.list ≡ (state self.old).batches };

    /// The number of the last publication, 0 before the first one.
    fn number(&self) -> u64
        ensures { result ≡ length (state self.now).batches };

    /// The number of the last publication, and its verdict on a packet.
    fn judge(&self, iface: u16, source: Option<Addr>) -> (u64, Verdict)
        requires { IsSound J.opening (state self.now) }
        ensures number { result.0 ≡ length (state self.now).batches }
        ensures verdict { result.1 ≡ judge (fold J.opening (state self.now).batches) iface source };
}

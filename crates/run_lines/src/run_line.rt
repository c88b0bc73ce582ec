//! What one line of a runbook does to a run, and which lines of output it gives.
ghost use Rattle.std.specs.Prelude.{◌≡◌, ◌+◌, ◌^◌, ◌<◌, ◌≤◌, [], ◌∷◌, ◌++◌, Err, IfErr, List, ℕ, OnOk, Option, Some};
ghost use Rattle.std.specs.Prelude.{length, map};
ghost use Rattle.urpf_base.specs.Faults.{CountsFault};
ghost use Rattle.report_text.specs.Lines.{publish_line};
ghost use Rattle.router_config.specs.Edits.{IsForConfigured};
ghost use Rattle.router_config.specs.declared.edits.Edit.{Edit};
ghost use Rattle.router_config.specs.Settings.{Settings};
ghost use Rattle.runbook.specs.Book.{IsConfiguredFor};
ghost use Rattle.runbook.specs.declared.lines.BookLine.{BookLine};
ghost use Rattle.control_core.specs.Controls.{ControlStandsFor, IsShown, KeepsPublished};
ghost use Rattle.control_core.specs.States.{ControlState};
ghost use Rattle.control_core.specs.Worlds.{Course, Opening, Position, last_number};
ghost use Rattle.control_core.specs.declared.limits.RunFault.{RunFault};
ghost use Rattle.run_lines.specs.Inputs.{Run};
ghost use Rattle.run_lines.specs.Places.{Place, place_after};
ghost use Rattle.run_lines.specs.Publications.{Grows, HandedOn, IsInStep};
ghost use Rattle.run_lines.specs.Runs.{CountEach, CountsOn, IsAt, NamesSession, RanStep, RanSteps, Serves, Shows};
ghost use Rattle.run_lines.specs.Slots.{Slot, slots_of};
ghost use Rattle.run_lines.specs.Steps as steps;
ghost use Rattle.run_lines.specs.Steps.{pulls_of, steps_in};

use crate::outlet::Outlet;
use control_core::{Control, Marks, RunFault, offer};
use cover_table::{Batch, Snapshot};
use feed_io::{BoxedFeed, Feed};
use report_text::{put_check, put_mark, put_round};
use router_config::Edit;
use rpf_plain::SetEngine;
use runbook::BookLine;
use urpf_base::{Addr, IfaceId, Line, OutOfMemory, Sink};

/// Does what the line asks for, and offers what it gives to the sink.
pub fn take_line<E: SetEngine, A, T: Outlet<A>, K: Sink>(
    control: &mut Control<E>,
    outlet: &mut T,
    aid: &A,
    rounds: &mut u64,
    line: &BookLine,
    feeds: &mut Vec<Option<BoxedFeed>>,
    out: &mut K,
) -> Result<(), RunFault>
    requires slots { length feeds.old.items ≡ length control.old.peers }
    requires serves { (config : Settings) × Serves config control.old × IsConfiguredFor config line.now }
    requires edits { control.old.edits < 2 ^ 32 }
    requires number { last_number control.old.marks < 2 ^ 32 }
    requires rounds { rounds.old < 2 ^ 32 }
    requires sound { T.sound outlet.old }
    requires in_step { IsInStep control.old (T.shown outlet.old) }
    ensures ran { (run : Run) (place : Place) → IsAt run place control.old rounds.old (slots_of ⟦<BoxedFeed as Feed>⟧.left feeds.old.items)
        → Shows run place control.old (T.shown outlet.old)
        → RanSteps run place (steps_in (length control.old.peers) line.now) result control.new rounds.new
        (slots_of ⟦<BoxedFeed as Feed>⟧.left feeds.new.items) (K.held out.old) (K.held out.new) }
    ensures shown { (run : Run) (place : Place) → IsAt run place control.old rounds.old (slots_of ⟦<BoxedFeed as Feed>⟧.left feeds.old.items)
        → Shows run place control.old (T.shown outlet.old)
        → OnOk result (Shows run (place_after run.inputs (steps_in (length control.old.peers) line.now) place)
        control.new (T.shown outlet.new)) }
    ensures batches { (run : Run) (place : Place) → IsAt run place control.old rounds.old (slots_of ⟦<BoxedFeed as Feed>⟧.left feeds.old.items)
        → HandedOn run place (steps_in (length control.old.peers) line.now) result (T.batches outlet.old) (T.batches outlet.new) }
    ensures grows { Grows (T.batches outlet.old) (T.batches outlet.new) }
    ensures sound { OnOk result (T.sound outlet.new) }
    ensures in_step { OnOk result (IsInStep control.new (T.shown outlet.new)) }
    ensures names { IfErr result (NamesSession (length control.old.peers)) }
    ensures serves { (config : Settings) → Serves config control.old → Serves config control.new }
    ensures counts { CountsOn control.old control.new }
    ensures rounds { rounds.new ≤ rounds.old + 1 }
    ensures feeds { CountEach ⟦<BoxedFeed as Feed>⟧.faults (λ s. result ≡ Err (RunFault.ReadFault s)) feeds.old.items feeds.new.items }
    ensures sink { CountsFault (result ≡ Err RunFault.WriteFault) (K.faults out.old) (K.faults out.new) }
{
    match line {
        BookLine::Pull { session, count } => pull_named(control, feeds, *session, *count, out),
        BookLine::Publish => publish(control, outlet, aid, out),
        BookLine::Round => end_round(rounds, out),
        BookLine::Check { iface, addr } => check(outlet.snapshot(), *iface, addr, out),
        BookLine::Change(edit) => change(control, edit),
        BookLine::Summary => summarize(control, out),
    }
}

/// Pulls the session of this number, or each where none is given.
fn pull_named<E: SetEngine, K: Sink>(
    control: &mut Control<E>,
    feeds: &mut Vec<Option<BoxedFeed>>,
    session: Option<u32>,
    count: Option<u64>,
    out: &mut K,
) -> Result<(), RunFault>
    requires slots { length feeds.old.items ≡ length control.old.peers }
    requires serves { (config : Settings) × Serves config control.old }
    requires named { (number : ℕ) → session ≡ Some number → number < length control.old.peers }
    ensures ran { (run : Run) (place : Place) (rounds : ℕ)
        → IsAt run place control.old rounds (slots_of ⟦<BoxedFeed as Feed>⟧.left feeds.old.items)
        → RanSteps run place (steps_in (length control.old.peers) (BookLine.Pull session count)) result control.new
        rounds (slots_of ⟦<BoxedFeed as Feed>⟧.left feeds.new.items) (K.held out.old) (K.held out.new) }
    ensures names { IfErr result (NamesSession (length control.old.peers)) }
    ensures serves { (config : Settings) → Serves config control.old → Serves config control.new }
    ensures published { KeepsPublished control.old control.new }
    ensures kinds { control.new.kinds ≡ control.old.kinds }
    ensures counts { CountsOn control.old control.new }
    ensures feeds { CountEach ⟦<BoxedFeed as Feed>⟧.faults (λ s. result ≡ Err (RunFault.ReadFault s)) feeds.old.items feeds.new.items }
    ensures sink { CountsFault (result ≡ Err RunFault.WriteFault) (K.faults out.old) (K.faults out.new) }
{
    match session {
        Some(session) => pull(control, feeds, session, count, out),
        None => pull_each(control, feeds, count, out),
    }
}

/// Pulls each session, from session 0 on.
fn pull_each<E: SetEngine, K: Sink>(
    control: &mut Control<E>,
    feeds: &mut Vec<Option<BoxedFeed>>,
    count: Option<u64>,
    out: &mut K,
) -> Result<(), RunFault>
    requires slots { length feeds.old.items ≡ length control.old.peers }
    requires serves { (config : Settings) × Serves config control.old }
    ensures ran { (run : Run) (place : Place) (rounds : ℕ)
        → IsAt run place control.old rounds (slots_of ⟦<BoxedFeed as Feed>⟧.left feeds.old.items)
        → RanSteps run place (pulls_of (length control.old.peers) count) result control.new rounds
        (slots_of ⟦<BoxedFeed as Feed>⟧.left feeds.new.items) (K.held out.old) (K.held out.new) }
    ensures names { IfErr result (NamesSession (length control.old.peers)) }
    ensures serves { (config : Settings) → Serves config control.old → Serves config control.new }
    ensures published { KeepsPublished control.old control.new }
    ensures kinds { control.new.kinds ≡ control.old.kinds }
    ensures counts { CountsOn control.old control.new }
    ensures feeds { CountEach ⟦<BoxedFeed as Feed>⟧.faults (λ s. result ≡ Err (RunFault.ReadFault s)) feeds.old.items feeds.new.items }
    ensures sink { CountsFault (result ≡ Err RunFault.WriteFault) (K.faults out.old) (K.faults out.new) }
{
    let sessions = feeds.len() as u32;
    for session in 0..sessions {
        if let Err(fault) = pull(control, feeds, session, count, out) {
            return Err(fault);
        }
    }
    Ok(())
}

/// Pulls one session.
fn pull<E: SetEngine, K: Sink>(
    control: &mut Control<E>,
    feeds: &mut Vec<Option<BoxedFeed>>,
    session: u32,
    count: Option<u64>,
    out: &mut K,
) -> Result<(), RunFault>
    requires slots { length feeds.old.items ≡ length control.old.peers }
    requires session { session < length control.old.peers }
    ensures ran { (run : Run) (place : Place) (rounds : ℕ)
        → IsAt run place control.old rounds (slots_of ⟦<BoxedFeed as Feed>⟧.left feeds.old.items)
        → RanStep run place (steps.pull session count) result control.new rounds
        (slots_of ⟦<BoxedFeed as Feed>⟧.left feeds.new.items) (K.held out.old) (K.held out.new) }
    ensures names { IfErr result (NamesSession (length control.old.peers)) }
    ensures serves { (config : Settings) → Serves config control.old → Serves config control.new }
    ensures published { KeepsPublished control.old control.new }
    ensures kinds { control.new.kinds ≡ control.old.kinds }
    ensures edits { control.new.edits ≡ control.old.edits }
    ensures number { last_number control.new.marks ≡ last_number control.old.marks }
    ensures feeds { CountEach ⟦<BoxedFeed as Feed>⟧.faults (λ s. result ≡ Err (RunFault.ReadFault s)) feeds.old.items feeds.new.items }
    ensures sink { CountsFault (result ≡ Err RunFault.WriteFault) (K.faults out.old) (K.faults out.new) }
{
    control.pull(feeds, session, count, out)
}

/// Publishes: the outlet takes the batch over, and the line of the publication is offered.
fn publish<E: SetEngine, A, T: Outlet<A>, K: Sink>(
    control: &mut Control<E>,
    outlet: &mut T,
    aid: &A,
    out: &mut K,
) -> Result<(), RunFault>
    requires number { last_number control.old.marks < 2 ^ 32 }
    requires sessions { length control.old.peers ≤ 128 }
    requires sound { T.sound outlet.old }
    requires in_step { IsInStep control.old (T.shown outlet.old) }
    ensures ran { (run : Run) (place : Place) (rounds : ℕ) (slots : List Slot)
        → IsAt run place control.old rounds slots
        → RanStep run place steps.publish result control.new rounds slots (K.held out.old) (K.held out.new) }
    ensures shown { (opening : Opening) (edits : List Edit) (courses : List Course)
        → ControlStandsFor opening edits courses control.old → IsShown opening edits control.old (T.shown outlet.old)
        → OnOk result (IsShown opening edits control.new (T.shown outlet.new)) }
    ensures batches { (run : Run) (place : Place) (rounds : ℕ) (slots : List Slot)
        → IsAt run place control.old rounds slots
        → HandedOn run place (steps.publish ∷ []) result (T.batches outlet.old) (T.batches outlet.new) }
    ensures grows { Grows (T.batches outlet.old) (T.batches outlet.new) }
    ensures sound { OnOk result (T.sound outlet.new) }
    ensures in_step { OnOk result (IsInStep control.new (T.shown outlet.new)) }
    ensures err { IfErr result (NamesSession 0) }
    ensures serves { (config : Settings) → Serves config control.old → Serves config control.new }
    ensures edits { control.new.edits ≡ control.old.edits }
    ensures number { last_number control.new.marks ≤ last_number control.old.marks + 1 }
    ensures sink { CountsFault (result ≡ Err RunFault.WriteFault) (K.faults out.old) (K.faults out.new) }
{
    let batch = match control.publish_batch() {
        Ok(batch) => batch,
        Err(OutOfMemory) => return Err(RunFault::OutOfMemory),
    };
    let cells = cells_of(&batch);
    if let Err(OutOfMemory) = outlet.take_over(aid, batch) {
        return Err(RunFault::OutOfMemory);
    }
    let mut text = Line::new();
    put_last_mark(control.marks(), cells, &mut text);
    offer(&text, out)
}

/// How many cells the batch changes.
fn cells_of(batch: &Batch) -> u64
    ensures { result ≡ length batch.now.changes }
{
    batch.changes.items().len() as u64
}

/// Writes the line of the last mark, at which so many cells changed.
pub fn put_last_mark(marks: &Marks, cells: u64, to: &mut Line)
    requires empty { to.old ≡ [] }
    requires few { (earlier : List Position) × (mark : Position) × (marks.now ≡ earlier ++ mark ∷ [])
        × (length mark.items ≤ 128) }
    ensures { (earlier : List Position) (mark : Position) → marks.now ≡ earlier ++ mark ∷ []
        → to.new ≡ publish_line mark.number mark.edits cells mark.items }
{
    let marks = marks.items();
    let mark = &marks[marks.len() - 1];
    put_mark(mark.number(), mark.edits(), cells, mark.items(), to);
}

/// Ends a round, and offers its line.
fn end_round<K: Sink>(rounds: &mut u64, out: &mut K) -> Result<(), RunFault>
    requires { rounds.old < 2 ^ 32 }
    ensures ran { (run : Run) (place : Place) (control : ControlState) (slots : List Slot)
        → IsAt run place control rounds.old slots
        → RanStep run place steps.round result control rounds.new slots (K.held out.old) (K.held out.new) }
    ensures err { IfErr result (NamesSession 0) }
    ensures rounds { rounds.new ≡ rounds.old + 1 }
    ensures sink { CountsFault (result ≡ Err RunFault.WriteFault) (K.faults out.old) (K.faults out.new) }
{
    *rounds += 1;
    let mut text = Line::new();
    put_round(*rounds, &mut text);
    offer(&text, out)
}

/// Judges the address by the snapshot, and offers the line of the check.
fn check<K: Sink>(
    snapshot: &Snapshot,
    iface: IfaceId,
    addr: &Addr,
    out: &mut K,
) -> Result<(), RunFault>
    ensures ran { (run : Run) (place : Place) (control : ControlState) (rounds : ℕ) (slots : List Slot)
        → IsAt run place control rounds slots → Shows run place control snapshot.now
        → RanStep run place (steps.check iface addr.now) result control rounds slots
        (K.held out.old) (K.held out.new) }
    ensures err { IfErr result (NamesSession 0) }
    ensures sink { CountsFault (result ≡ Err RunFault.WriteFault) (K.faults out.old) (K.faults out.new) }
{
    let mut text = Line::new();
    let verdict = snapshot.check(iface.number(), Some(*addr));
    put_check(iface, addr, verdict, snapshot.number(), &mut text);
    offer(&text, out)
}

/// Changes the role or the mode of an interface, or the pairs. Nothing is written.
fn change<E: SetEngine>(control: &mut Control<E>, edit: &Edit) -> Result<(), RunFault>
    requires few { control.old.edits < 2 ^ 32 }
    requires configured { IsForConfigured control.old.kinds edit.now }
    ensures ran { (run : Run) (place : Place) (rounds : ℕ) (slots : List Slot)
        (held : Option (List ℕ)) → IsAt run place control.old rounds slots
        → RanStep run place (steps.change edit.now) result control.new rounds slots held held }
    ensures published { OnOk result (KeepsPublished control.old control.new) }
    ensures err { IfErr result (λ fault. fault ≡ RunFault.OutOfMemory) }
    ensures serves { (config : Settings) → Serves config control.old → Serves config control.new }
    ensures names { map (λ row. row.0) control.new.kinds ≡ map (λ row. row.0) control.old.kinds }
    ensures edits { control.new.edits ≤ control.old.edits + 1 }
    ensures number { last_number control.new.marks ≡ last_number control.old.marks }
{
    match control.edit(edit) {
        Ok(()) => Ok(()),
        Err(OutOfMemory) => Err(RunFault::OutOfMemory),
    }
}

/// Offers the line of the routes and the pairs of now.
fn summarize<E: SetEngine, K: Sink>(control: &Control<E>, out: &mut K) -> Result<(), RunFault>
    ensures ran { (run : Run) (place : Place) (rounds : ℕ) (slots : List Slot)
        → IsAt run place control.now rounds slots
        → RanStep run place steps.summary result control.now rounds slots (K.held out.old) (K.held out.new) }
    ensures err { IfErr result (NamesSession 0) }
    ensures sink { CountsFault (result ≡ Err RunFault.WriteFault) (K.faults out.old) (K.faults out.new) }
{
    let mut text = Line::new();
    control.put_summary(&mut text);
    offer(&text, out)
}

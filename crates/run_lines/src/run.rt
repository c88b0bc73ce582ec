//! A run over the sessions of a configuration: the lines of a runbook and a table of pairs come in, and
//! the text of the run goes to a sink.
ghost use Rattle.std.specs.Prelude.{◌≡◌, ◌≤◌, ◌<◌, ◌^◌, [], ◌∷◌, ℕ, Err, List, length, slice_range, IfErr, IfOk, OnErr, OnOk};
ghost use Rattle.std.specs.Io.KnownBytes.{Appends};
ghost use Rattle.urpf_base.specs.Faults.{CountsFault};
ghost use Rattle.urpf_base.specs.declared.sessions.SessionConfig.{SessionConfig};
ghost use Rattle.origin_pairs.specs.Pairs.{IsPairSet, Pair};
ghost use Rattle.cover_table.specs.Snapshots as snapshots;
ghost use Rattle.router_config.specs.Settings.{Settings};
ghost use Rattle.runbook.specs.Book.{AreConfiguredFor};
ghost use Rattle.control_core.specs.declared.limits.RunFault.{RunFault};
ghost use Rattle.control_core.specs.Controls.{IsOpened, IsUnused, first_mark, without_pairs};
ghost use Rattle.control_core.specs.Worlds.{Opening, last_number};
ghost use Rattle.run_lines.specs.Inputs.{IsRun, Run, opening_of, pairs_in, skipped_in};
ghost use Rattle.run_lines.specs.Places.{Place, opening, place_after};
ghost use Rattle.run_lines.specs.Publications.{Grows, HandedOn, IsInStep};
ghost use Rattle.run_lines.specs.RunText.{AreTotals, head_text};
ghost use Rattle.run_lines.specs.Runs.{CountEach, IsAt, NamesSession, RanBook, RanSteps, Serves, Shows, TookFront, run_limits};
ghost use Rattle.run_lines.specs.Slots.{slots_of, told_by};
ghost use Rattle.run_lines.specs.Steps.{lines_in, steps_of};

use crate::outlet::Outlet;
use crate::run_line::{put_last_mark, take_line};
use control_core::{Control, ITEM_LIMIT, Limits, Marks, OCTET_LIMIT, RunFault, offer};
use cover_table::Snapshot;
use feed_io::{BoxedFeed, Feed};
use report_text::{put_done, put_run};
use roa_irr::Pairs;
use router_config::Config;
use rpf_plain::{PlainEngine, SetEngine};
use runbook::Book;
use std::alloc::Global;
use urpf_base::{Line, OutOfMemory, Sink};

/// How much a run begins with, as its first line tells it.
#[derive(Clone, Copy)]
pub struct Totals {
    pub interfaces: u64,
    pub sessions: u64,
    /// The pairs of the table, each once.
    pub pairs: u64,
    /// The records or objects of the table that gave no pair.
    pub skipped: u64,
}

/// Runs the book over the pairs of the table, where there is one, and the feeds in the slots of the
/// sessions, one each, from the opening to the closing line. A feed goes out of its slot at its end. Where the opening wants memory nothing is written and no
/// feed is asked.
pub fn run_book<K: Sink>(
    alloc: Global,
    config: Config,
    book: &Book,
    pairs: &Option<Pairs>,
    feeds: &mut Vec<Option<BoxedFeed>>,
    out: &mut K,
) -> Result<(), RunFault>
    requires slots { length feeds.old.items ≡ length config.sessions }
    requires few { length book.now < 2 ^ 32 }
    requires configured { AreConfiguredFor config book.now }
    ensures ran { (run : Run) → run.config ≡ config → run.table ≡ pairs.now → IsRun run
        → slots_of ⟦<BoxedFeed as Feed>⟧.left feeds.old.items ≡ told_by run
        → RanBook run (lines_in book.now) result (slots_of ⟦<BoxedFeed as Feed>⟧.left feeds.new.items) (K.held out.old) (K.held out.new) }
    ensures names { IfErr result (NamesSession (length config.sessions)) }
    ensures feeds { CountEach ⟦<BoxedFeed as Feed>⟧.faults (λ s. result ≡ Err (RunFault.ReadFault s)) feeds.old.items feeds.new.items }
    ensures sink { CountsFault (result ≡ Err RunFault.WriteFault) (K.faults out.old) (K.faults out.new) }
{
    let (mut control, mut snapshot, totals) = match open_control(alloc, config, pairs) {
        Ok(opened) => opened,
        Err(OutOfMemory) => return Err(RunFault::OutOfMemory),
    };
    run_control(&mut control, &mut snapshot, &totals, book, feeds, out)
}

/// Runs the book over a control at its opening, which has so much, and a snapshot that shows its mark.
fn run_control<E: SetEngine, K: Sink>(
    control: &mut Control<E>,
    snapshot: &mut Snapshot,
    totals: &Totals,
    book: &Book,
    feeds: &mut Vec<Option<BoxedFeed>>,
    out: &mut K,
) -> Result<(), RunFault>
    requires opened { (opening : Opening) × IsOpened opening run_limits control.old
        × AreConfiguredFor opening.settings book.now × (length opening.settings.sessions ≤ 128) }
    requires slots { length feeds.old.items ≡ length control.old.peers }
    requires few { length book.now < 2 ^ 32 }
    requires in_step { IsInStep control.old snapshot.old }
    ensures ran { (run : Run) → IsOpened (opening_of run) run_limits control.old
        → Shows run (opening run.config.sessions) control.old snapshot.old
        → AreTotals run.config run.table totals.now → IsRun run → slots_of ⟦<BoxedFeed as Feed>⟧.left feeds.old.items ≡ told_by run
        → RanBook run (lines_in book.now) result (slots_of ⟦<BoxedFeed as Feed>⟧.left feeds.new.items) (K.held out.old) (K.held out.new) }
    ensures names { IfErr result (NamesSession (length control.old.peers)) }
    ensures feeds { CountEach ⟦<BoxedFeed as Feed>⟧.faults (λ s. result ≡ Err (RunFault.ReadFault s)) feeds.old.items feeds.new.items }
    ensures sink { CountsFault (result ≡ Err RunFault.WriteFault) (K.faults out.old) (K.faults out.new) }
{
    if let Err(fault) = open_run(totals, control.marks(), out) {
        return Err(fault);
    }
    let mut rounds = 0;
    if let Err(fault) = take_lines(
        control,
        snapshot,
        &(),
        &mut rounds,
        book,
        0,
        book.len(),
        feeds,
        out,
    ) {
        return Err(fault);
    }
    let mut text = Line::new();
    put_done(control.number(), 0, &mut text);
    offer(&text, out)
}

/// The control of the sessions at the opening, with the pairs of the table where there is one, a
/// snapshot of its interfaces, and how much there is.
pub fn open_control(
    alloc: Global,
    config: Config,
    pairs: &Option<Pairs>,
) -> Result<(Control<PlainEngine>, Snapshot, Totals), OutOfMemory>
    ensures opened { IfOk result (λ o. IsOpened (record { settings = config; pairs = pairs_in pairs.now }) run_limits o.0) }
    ensures shown { IfOk result (λ o. o.1 ≡ snapshots.opening config.interfaces) }
    ensures totals { IfOk result (λ o. AreTotals config pairs.now o.2) }
{
    let interfaces = config.interfaces() as u64;
    let sessions = config.sessions() as u64;
    let snapshot = Snapshot::new(alloc, config.kinds()?);
    let mut control = new_control(alloc, config)?;
    let distinct = load_table(&mut control, pairs)?;
    let totals = Totals {
        interfaces,
        sessions,
        pairs: distinct,
        skipped: skipped(pairs),
    };
    Ok((control, snapshot, totals))
}

/// The control of the sessions without pairs, over an engine that computes the sets anew, within the
/// largest limits.
fn new_control(alloc: Global, config: Config) -> Result<Control<PlainEngine>, OutOfMemory>
    ensures { IfOk result (IsOpened (without_pairs config) run_limits) }
{
    let engine = PlainEngine::new(alloc, &config.kinds()?)?;
    let limits = Limits {
        items: ITEM_LIMIT,
        octets: OCTET_LIMIT,
    };
    Control::new(alloc, engine, config, limits)
}

/// Loads the pairs of the table, where there is one. Answers how many there are, each once.
fn load_table<E: SetEngine>(
    control: &mut Control<E>,
    pairs: &Option<Pairs>,
) -> Result<u64, OutOfMemory>
    requires unused { IsUnused control.old }
    ensures opened { (settings : Settings) → IsOpened (without_pairs settings) run_limits control.old
        → OnOk result (IsOpened (record { settings = settings; pairs = pairs_in pairs.now }) run_limits control.new) }
    ensures distinct { IfOk result (λ n. (set : List Pair) × IsPairSet (pairs_in pairs.now) set × (n ≡ length set)) }
{
    match pairs {
        Some(pairs) => control.load_pairs(pairs),
        None => Ok(0),
    }
}

/// How many records or objects of the table gave no pair.
fn skipped(pairs: &Option<Pairs>) -> u64
    ensures { result ≡ skipped_in pairs.now }
{
    match pairs {
        Some(pairs) => pairs.skipped(),
        None => 0,
    }
}

/// Offers the run line, and the line of publication 0, whose mark is there.
pub fn open_run<K: Sink>(totals: &Totals, marks: &Marks, out: &mut K) -> Result<(), RunFault>
    requires { (sessions : List SessionConfig) × (marks.now ≡ first_mark sessions ∷ []) × (length sessions ≤ 128) }
    ensures ok { (sessions : List SessionConfig) → marks.now ≡ first_mark sessions ∷ []
        → OnOk result (Appends (K.held out.old) (K.held out.new) (head_text totals.now sessions)) }
    ensures err { IfErr result (λ fault. fault ≡ RunFault.WriteFault) }
    ensures front { (sessions : List SessionConfig) → marks.now ≡ first_mark sessions ∷ []
        → OnErr result (TookFront (λ text. text ≡ head_text totals.now sessions) (K.held out.old) (K.held out.new)) }
    ensures sink { CountsFault (result ≡ Err RunFault.WriteFault) (K.faults out.old) (K.faults out.new) }
{
    let mut first = Line::new();
    put_run(
        totals.interfaces,
        totals.sessions,
        totals.pairs,
        totals.skipped,
        &mut first,
    );
    if let Err(fault) = offer(&first, out) {
        return Err(fault);
    }
    let mut second = Line::new();
    put_last_mark(marks, 0, &mut second);
    offer(&second, out)
}

/// Takes the lines of the book from line `from` on, up to line `upto`, which is not taken. Lines are
/// counted from 0.
pub fn take_lines<E: SetEngine, A, T: Outlet<A>, K: Sink>(
    control: &mut Control<E>,
    outlet: &mut T,
    aid: &A,
    rounds: &mut u64,
    book: &Book,
    from: usize,
    upto: usize,
    feeds: &mut Vec<Option<BoxedFeed>>,
    out: &mut K,
) -> Result<(), RunFault>
    requires range { (from ≤ upto) × (upto ≤ length book.now) }
    requires slots { length feeds.old.items ≡ length control.old.peers }
    requires serves { (config : Settings) × Serves config control.old × AreConfiguredFor config book.now }
    requires few { length book.now < 2 ^ 32 }
    requires edits { control.old.edits ≤ from }
    requires number { last_number control.old.marks ≤ from }
    requires rounds { rounds.old ≤ from }
    requires sound { T.sound outlet.old }
    requires in_step { IsInStep control.old (T.shown outlet.old) }
    ensures ran { (run : Run) (place : Place) → IsAt run place control.old rounds.old (slots_of ⟦<BoxedFeed as Feed>⟧.left feeds.old.items)
        → Shows run place control.old (T.shown outlet.old)
        → RanSteps run place (steps_of (length control.old.peers) (lines_in (slice_range book.now from upto))) result
        control.new rounds.new (slots_of ⟦<BoxedFeed as Feed>⟧.left feeds.new.items) (K.held out.old) (K.held out.new) }
    ensures shown { (run : Run) (place : Place) → IsAt run place control.old rounds.old (slots_of ⟦<BoxedFeed as Feed>⟧.left feeds.old.items)
        → Shows run place control.old (T.shown outlet.old)
        → OnOk result (Shows run (place_after run.inputs
        (steps_of (length control.old.peers) (lines_in (slice_range book.now from upto))) place)
        control.new (T.shown outlet.new)) }
    ensures batches { (run : Run) (place : Place) → IsAt run place control.old rounds.old (slots_of ⟦<BoxedFeed as Feed>⟧.left feeds.old.items)
        → Shows run place control.old (T.shown outlet.old)
        → HandedOn run place (steps_of (length control.old.peers) (lines_in (slice_range book.now from upto))) result
        (T.batches outlet.old) (T.batches outlet.new) }
    ensures grows { Grows (T.batches outlet.old) (T.batches outlet.new) }
    ensures sound { OnOk result (T.sound outlet.new) }
    ensures in_step { OnOk result (IsInStep control.new (T.shown outlet.new)) }
    ensures names { IfErr result (NamesSession (length control.old.peers)) }
    ensures serves { (config : Settings) → Serves config control.old → Serves config control.new }
    ensures edits { control.new.edits ≤ upto }
    ensures number { last_number control.new.marks ≤ upto }
    ensures rounds { rounds.new ≤ upto }
    ensures feeds { CountEach ⟦<BoxedFeed as Feed>⟧.faults (λ s. result ≡ Err (RunFault.ReadFault s)) feeds.old.items feeds.new.items }
    ensures sink { CountsFault (result ≡ Err RunFault.WriteFault) (K.faults out.old) (K.faults out.new) }
{
    let count = upto - from;
    let mut k = 0;
    while k < count {
        let (_, line) = book.line(from + k);
        if let Err(fault) = take_line(control, outlet, aid, rounds, &line, feeds, out) {
            return Err(fault);
        }
        k += 1;
    }
    Ok(())
}

//! A run with workers: its publications have a name, its control and its workers are made, and its
//! rounds are run.
ghost use Rattle.std.specs.Prelude.{◌≡◌, ◌≤◌, ◌<◌, ◌^◌, [], ℕ, List, Some, length, map, vec_len, OnOk};
ghost use Rattle.std.specs.List.{AllByRecursion};
ghost use Rattle.runbook.specs.Book.{AreConfiguredFor};
ghost use Rattle.control_core.specs.Worlds.{Opening};
ghost use Rattle.run_lines.specs.Inputs.{IsRun, Run, opening_of};
ghost use Rattle.run_lines.specs.RunText.{AreTotals};
ghost use Rattle.run_lines.specs.Runs.{TookAll};
ghost use Rattle.run_lines.specs.Slots.{slots_of, told_by};
ghost use Rattle.run_lines.specs.Steps.{lines_in};
ghost use Rattle.live_rounds.specs.Parts.{IsSound};
ghost use Rattle.live_rounds.specs.Seats as seats;
ghost use Rattle.live_rounds.specs.Seats.{identity_of, list_of};
ghost use Rattle.live_rounds.specs.Stations as stations;
ghost use Rattle.live_rounds.specs.Stations.{station_of};
ghost use Rattle.live_control.specs.Standings.{IsReady};
ghost use Rattle.live_text.specs.Texts.{IsLiveText};
ghost use Rattle.live_run.specs.Begun.{IsBegun};
ghost use Rattle.live_run.specs.Hiring.{AreNew, SeesNone};

use crate::hiring::{dismiss, hire};
use control_core::RunFault;
use cover_table::Batch;
use epoch_publish::{Event, Naming, Opened, Passes, Published};
use feed_io::{BoxedFeed, Feed, Gate, PacketSource};
use left_right::Absorb;
use live_control::LiveControl;
use live_rounds::{LiveFault, Seat, Worker, run_rounds};
use roa_irr::Pairs;
use router_config::Config;
use run_lines::Totals;
use runbook::Book;
use std::alloc::Global;
use std::marker::Brand;
use std::sync::Wait;
use std::thread::Threads;
use urpf_base::{OutOfMemory, Sink};

/// Why a run does not begin.
const WANT: LiveFault = LiveFault::Run(RunFault::OutOfMemory);

/// Runs the book over the pairs of the table, where there is one, the feeds in the slots of the
/// sessions, one each, and the packets of the workers, from the opening to the closing line. A feed
/// goes out of its slot at its end, and all packets are in their places at the return. Where the
/// opening wants memory nothing is written, and no feed and no packet is asked.
pub fn run_live<R: Threads + Wait + Sync, P: PacketSource + Send + Drop, K: Sink, G: Gate + Sync>(
    rt: &R,
    alloc: Global,
    config: Config,
    book: &Book,
    pairs: &Option<Pairs>,
    feeds: &mut Vec<Option<BoxedFeed>>,
    packets: &mut Vec<P>,
    out: &mut K,
    gate: &G,
) -> Result<(), LiveFault>
    requires slots { length feeds.old.items ≡ length config.sessions }
    requires few { length book.now < 2 ^ 32 }
    requires configured { AreConfiguredFor config book.now }
    requires workers { (0 < vec_len packets.old) × (vec_len packets.old ≤ 32) }
    ensures places { vec_len packets.new ≡ vec_len packets.old }
    ensures ran { (run : Run) (streams : List (List ℕ)) → run.config ≡ config → run.table ≡ pairs.now → IsRun run
        → slots_of ⟦<BoxedFeed as Feed>⟧.left feeds.old.items ≡ told_by run
        → map P.left packets.old.items ≡ map Some streams
        → OnOk result (TookAll (IsLiveText run (lines_in book.now) streams) (K.held out.old) (K.held out.new)) }
{
    let Ok(kinds) = config.kinds() else {
        return Err(WANT);
    };
    run_named::<Brand, R, P, K, G>(
        rt,
        alloc,
        Opened::new(kinds),
        config,
        book,
        pairs,
        feeds,
        packets,
        out,
        gate,
    )
}

/// The same where the publications have a name.
fn run_named<
    J: Naming + Send + Sync,
    R: Threads + Wait + Sync,
    P: PacketSource + Send + Drop,
    K: Sink,
    G: Gate + Sync,
>(
    rt: &R,
    alloc: Global,
    opened: Opened,
    config: Config,
    book: &Book,
    pairs: &Option<Pairs>,
    feeds: &mut Vec<Option<BoxedFeed>>,
    packets: &mut Vec<P>,
    out: &mut K,
    gate: &G,
) -> Result<(), LiveFault>
    requires named { (opened.identity ≡ J.book) × (opened.opening ≡ J.opening) }
    requires interfaces { opened.opening ≡ config.interfaces }
    requires slots { length feeds.old.items ≡ length config.sessions }
    requires few { length book.now < 2 ^ 32 }
    requires configured { AreConfiguredFor config book.now }
    requires workers { (0 < vec_len packets.old) × (vec_len packets.old ≤ 32) }
    ensures places { vec_len packets.new ≡ vec_len packets.old }
    ensures ran { (run : Run) (streams : List (List ℕ)) → run.config ≡ config → run.table ≡ pairs.now → IsRun run
        → slots_of ⟦<BoxedFeed as Feed>⟧.left feeds.old.items ≡ told_by run
        → map P.left packets.old.items ≡ map Some streams
        → OnOk result (TookAll (IsLiveText run (lines_in book.now) streams) (K.held out.old) (K.held out.new)) }
{
    run_opened::<J, R, P, K, G>(
        rt, alloc, opened, config, book, pairs, feeds, packets, out, gate,
    )
}

/// The same where the published type takes the publications of this name over.
fn run_opened<
    J: Naming + Send + Sync,
    R: Threads + Wait + Sync,
    P: PacketSource + Send + Drop,
    K: Sink,
    G: Gate + Sync,
>(
    rt: &R,
    alloc: Global,
    opened: Opened,
    config: Config,
    book: &Book,
    pairs: &Option<Pairs>,
    feeds: &mut Vec<Option<BoxedFeed>>,
    packets: &mut Vec<P>,
    out: &mut K,
    gate: &G,
) -> Result<(), LiveFault>
where
    Published<J>: Absorb<Event<J>, State = [Batch; 0]>,
    requires named { (opened.identity ≡ J.book) × (opened.opening ≡ J.opening) }
    requires interfaces { opened.opening ≡ config.interfaces }
    requires slots { length feeds.old.items ≡ length config.sessions }
    requires few { length book.now < 2 ^ 32 }
    requires configured { AreConfiguredFor config book.now }
    requires workers { (0 < vec_len packets.old) × (vec_len packets.old ≤ 32) }
    ensures places { vec_len packets.new ≡ vec_len packets.old }
    ensures ran { (run : Run) (streams : List (List ℕ)) → run.config ≡ config → run.table ≡ pairs.now → IsRun run
        → slots_of ⟦<BoxedFeed as Feed>⟧.left feeds.old.items ≡ told_by run
        → map P.left packets.old.items ≡ map Some streams
        → OnOk result (TookAll (IsLiveText run (lines_in book.now) streams) (K.held out.old) (K.held out.new)) }
{
    let count = packets.len() as u32;
    match LiveControl::start(alloc, config, pairs, opened, count, gate) {
        Ok((mut control, mut passes, totals)) => {
            let result = run_hired(
                rt,
                alloc,
                &mut control,
                &mut passes,
                &totals,
                book,
                feeds,
                packets,
                out,
                gate,
            );
            control.end(rt);
            result
        }
        Err(OutOfMemory) => Err(WANT),
    }
}

/// Runs the book over a control at its opening. The workers are hired before anything is written, and
/// dismissed behind the run.
fn run_hired<
    'g,
    J: Naming + Send + Sync,
    R: Threads + Wait + Sync,
    P: PacketSource + Send + Drop,
    K: Sink,
    G: Gate + Sync,
>(
    rt: &R,
    alloc: Global,
    control: &mut LiveControl<'g, J, G>,
    passes: &mut Passes<J>,
    totals: &Totals,
    book: &Book,
    feeds: &mut Vec<Option<BoxedFeed>>,
    packets: &mut Vec<P>,
    out: &mut K,
    gate: &G,
) -> Result<(), LiveFault>
where
    Published<J>: Absorb<Event<J>, State = [Batch; 0]>,
    requires few { (opening : Opening) × IsBegun opening control.old × (length opening.settings.sessions ≤ 128) }
    requires kinds { control.old.kinds ≡ J.opening }
    requires ready { IsReady book.now 0 (length feeds.old.items) control.old }
    requires sound { IsSound J.opening control.old }
    requires fresh { AllByRecursion (SeesNone J.opening) passes.old }
    requires workers { vec_len packets.old ≤ 32 }
    ensures places { vec_len packets.new ≡ vec_len packets.old }
    ensures ran { (run : Run) (streams : List (List ℕ)) → IsBegun (opening_of run) control.old → IsRun run
        → AreTotals run.config run.table totals.now
        → slots_of ⟦<BoxedFeed as Feed>⟧.left feeds.old.items ≡ told_by run
        → map P.left packets.old.items ≡ map Some streams
        → OnOk result (TookAll (IsLiveText run (lines_in book.now) streams) (K.held out.old) (K.held out.new)) }
{
    let mut workers = match hire(alloc, passes, packets) {
        Ok(workers) => workers,
        Err(OutOfMemory) => return Err(WANT),
    };
    let result = run_begun(
        rt,
        alloc,
        control,
        totals,
        book,
        feeds,
        &mut workers,
        out,
        gate,
    );
    dismiss(workers, packets);
    result
}

/// Offers the head, and runs the rounds.
fn run_begun<
    'g,
    J: Naming + Send + Sync,
    R: Threads + Wait + Sync,
    P: PacketSource + Send,
    K: Sink,
    G: Gate + Sync,
>(
    rt: &R,
    alloc: Global,
    control: &mut LiveControl<'g, J, G>,
    totals: &Totals,
    book: &Book,
    feeds: &mut Vec<Option<BoxedFeed>>,
    workers: &mut [Worker<Seat<J>, P>],
    out: &mut K,
    gate: &G,
) -> Result<(), LiveFault>
where
    Published<J>: Absorb<Event<J>, State = [Batch; 0]>,
    requires few { (opening : Opening) × IsBegun opening control.old × (length opening.settings.sessions ≤ 128) }
    requires kinds { control.old.kinds ≡ J.opening }
    requires ready { IsReady book.now 0 (length feeds.old.items) control.old }
    requires sound { IsSound J.opening control.old }
    requires workers { AllByRecursion (stations.IsReady identity_of seats.opening_of list_of P.left J.opening []) workers.old }
    requires new { AreNew 0 (map (station_of P.left) workers.old) }
    requires many { length workers.old ≤ 32 }
    ensures places { length workers.new ≡ length workers.old }
    ensures ran { (run : Run) (streams : List (List ℕ)) → IsBegun (opening_of run) control.old → IsRun run
        → AreTotals run.config run.table totals.now
        → slots_of ⟦<BoxedFeed as Feed>⟧.left feeds.old.items ≡ told_by run
        → map (λ w. P.left w.packets) workers.old ≡ map Some streams
        → OnOk result (TookAll (IsLiveText run (lines_in book.now) streams) (K.held out.old) (K.held out.new)) }
{
    if let Err(fault) = control.open(totals, out) {
        return Err(LiveFault::Run(fault));
    }
    run_rounds(rt, alloc, control, book, feeds, workers, gate, out)
}

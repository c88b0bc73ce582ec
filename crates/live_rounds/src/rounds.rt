//! The rounds of a live run, one after the other.
ghost use Rattle.std.specs.Prelude.{◌≡◌, ◌+◌, ◌*◌, ◌≤◌, ◌<◌, ℕ, IfSome, IfNone, IsFalse, IsTrue, OnOk, Some};
ghost use Rattle.std.specs.Prelude.{length, map, slice_get, slice_range, vec_len};
ghost use Rattle.std.specs.List.{AllByRecursion, All, AllZip};
ghost use Rattle.std.specs.Io.KnownBytes.{Appends};
ghost use mathlib.Core.List.{IsPrefix};
ghost use Rattle.report_text.specs.Lines.{done_line};
ghost use Rattle.runbook.specs.declared.lines.BookLine.{BookLine as RunbookLine};
ghost use Rattle.runbook.specs.declared.lines.BookLine.TheVariants as line;
ghost use Rattle.forward_worker.specs.declared.desk.Stop.TheVariants as stop;
ghost use Rattle.live_rounds.specs.Parts.{IsSound, slots_in};
ghost use Rattle.live_rounds.specs.Rounds.{AreOthers, IsLastOf, IsLiveRun, IsOther, IsRoundOf, packet_count, stage};
ghost use Rattle.live_rounds.specs.Seats.{identity_of, list_of, opening_of};
ghost use Rattle.live_rounds.specs.Stations.{IsFit, IsReady, Worked, station_of};

use crate::fault::LiveFault;
use crate::part::Part;
use crate::place::Seat;
use crate::rows::write_all;
use crate::settle::settle_all;
use crate::work::work_all;
use crate::worker::Worker;
use control_core::{RunFault, offer};
use epoch_publish::{Checker, Naming};
use feed_io::{BoxedFeed, Feed, Gate, PacketSource};
use forward_worker::Stop;
use report_text::put_done;
use runbook::{Book, BookLine};
use std::alloc::Global;
use std::sync::Wait;
use std::thread::{Threads, join_mut};
use urpf_base::{Line, Sink};

/// Runs the book round by round: while the control runs the lines of a round the workers work it, and
/// then the line that ends it and the rows are written. What comes behind the last round follows, and
/// the closing line.
pub fn run_rounds<
    J: Naming + Send + Sync,
    R: Threads + Wait + Sync,
    C: Part<J>,
    P: PacketSource + Send,
    G: Gate + Sync,
    K: Sink,
>(
    rt: &R,
    alloc: Global,
    part: &mut C,
    book: &Book,
    feeds: &mut Vec<Option<BoxedFeed>>,
    workers: &mut [Worker<Seat<J>, P>],
    gate: &G,
    out: &mut K,
) -> Result<(), LiveFault>
    requires ready { C.ready book.now 0 (length feeds.old.items) (C.state part.old) }
    requires sound { IsSound J.opening (C.state part.old) }
    requires workers { AllByRecursion (IsReady identity_of opening_of list_of P.left J.opening (C.state part.old).batches) workers.old }
    requires few { length workers.old ≤ 32 }
    ensures ran { OnOk result (IsLiveRun C.ran J.opening book.now
        (stage (C.state part.old) (slots_in ⟦<BoxedFeed as Feed>⟧.left feeds.old.items) (K.held out.old) (map (station_of P.left) workers.old))
        (stage (C.state part.new) (slots_in ⟦<BoxedFeed as Feed>⟧.left feeds.new.items) (K.held out.new) (map (station_of P.left) workers.new))) }
{
    // The book has a length, so that there is a place behind each of its lines.
    let _length = book.len();
    let mut from = 0;
    while let Some(upto) = next_round(book, from) {
        if let Err(fault) = run_round(
            rt, alloc, part, book, from, upto, feeds, workers, gate, out,
        ) {
            return Err(fault);
        }
        from = upto + 1;
    }
    run_last(rt, alloc, part, book, from, feeds, workers, gate, out)
}

/// The place of the first line from this one on that ends a round. None where there is no such line.
fn next_round(book: &Book, from: usize) -> Option<usize>
    requires { from ≤ length book.now }
    ensures some { IfSome result (λ upto. (from ≤ upto) × (upto < length book.now) × AreOthers (slice_range book.now from upto)) }
    ensures ends { IfSome result (λ upto. (row : ℕ × RunbookLine) × (slice_get book.now upto ≡ Some row) × (row.1 ≡ line.Round)) }
    ensures none { IfNone result (AreOthers (slice_range book.now from (length book.now))) }
{
    let mut k = from;
    while k < book.len() {
        if ends_round(book, k) {
            return Some(k);
        }
        k += 1;
    }
    None
}

/// One round: these lines of the control beside the work of all workers, the line that ends it, and
/// the rows.
fn run_round<
    J: Naming + Send + Sync,
    R: Threads + Wait + Sync,
    C: Part<J>,
    P: PacketSource + Send,
    G: Gate + Sync,
    K: Sink,
>(
    rt: &R,
    alloc: Global,
    part: &mut C,
    book: &Book,
    from: usize,
    upto: usize,
    feeds: &mut Vec<Option<BoxedFeed>>,
    workers: &mut [Worker<Seat<J>, P>],
    gate: &G,
    out: &mut K,
) -> Result<(), LiveFault>
    requires range { (from ≤ upto) × (upto < length book.now) }
    requires others { AreOthers (slice_range book.now from upto) }
    requires ends { (row : ℕ × RunbookLine) × (slice_get book.now upto ≡ Some row) × (row.1 ≡ line.Round) }
    requires ready { C.ready book.now from (length feeds.old.items) (C.state part.old) }
    requires sound { IsSound J.opening (C.state part.old) }
    requires workers { AllByRecursion (IsReady identity_of opening_of list_of P.left J.opening (C.state part.old).batches) workers.old }
    ensures ran { OnOk result (IsRoundOf C.ran J.opening (slice_range book.now from (upto + 1))
        (stage (C.state part.old) (slots_in ⟦<BoxedFeed as Feed>⟧.left feeds.old.items) (K.held out.old) (map (station_of P.left) workers.old))
        (stage (C.state part.new) (slots_in ⟦<BoxedFeed as Feed>⟧.left feeds.new.items) (K.held out.new) (map (station_of P.left) workers.new))) }
    ensures ready { OnOk result (C.ready book.now (upto + 1) (length feeds.new.items) (C.state part.new)) }
    ensures sound { OnOk result (IsSound J.opening (C.state part.new)) }
    ensures workers { OnOk result (AllByRecursion (IsReady identity_of opening_of list_of P.left J.opening (C.state part.new).batches) workers.new) }
{
    // The book has a length, so that there is a place behind each of its lines.
    let _length = book.len();
    if let Err(fault) = run_beside(rt, alloc, part, book, from, upto, feeds, workers, gate, out) {
        return Err(LiveFault::Run(fault));
    }
    if let Err(fault) = part.run(rt, book, upto, upto + 1, feeds, out) {
        return Err(LiveFault::Run(fault));
    }
    settle_all(part, workers);
    write_all(part, workers, out)
}

/// Lines of the control beside the work of all workers.
fn run_beside<
    J: Naming,
    R: Threads + Wait + Sync,
    C: Part<J>,
    S: Checker + Send,
    P: PacketSource + Send,
    G: Gate + Sync,
    K: Sink,
>(
    rt: &R,
    alloc: Global,
    part: &mut C,
    book: &Book,
    from: usize,
    upto: usize,
    feeds: &mut Vec<Option<BoxedFeed>>,
    workers: &mut [Worker<S, P>],
    gate: &G,
    out: &mut K,
) -> Result<(), RunFault>
    requires range { (from ≤ upto) × (upto ≤ length book.now) }
    requires ready { C.ready book.now from (length feeds.old.items) (C.state part.old) }
    requires sound { IsSound J.opening (C.state part.old) }
    requires fit { All (λ w. IsFit w) workers.old }
    ensures ran { OnOk result (C.ran (slice_range book.now from upto)
        (C.state part.old) (slots_in ⟦<BoxedFeed as Feed>⟧.left feeds.old.items) (K.held out.old)
        (C.state part.new) (slots_in ⟦<BoxedFeed as Feed>⟧.left feeds.new.items) (K.held out.new)) }
    ensures ready { OnOk result (C.ready book.now upto (length feeds.new.items) (C.state part.new)) }
    ensures sound { OnOk result (IsSound J.opening (C.state part.new)) }
    ensures grows { OnOk result (IsPrefix (C.state part.old).batches (C.state part.new).batches) }
    ensures worked { AllZip (Worked S.identity S.opening S.list P.left stop.Marker) workers.old workers.new }
{
    let (_, result) = join_mut(
        rt,
        &mut ||
            requires { All (λ w. IsFit w) workers.now }
            ensures { AllZip (Worked S.identity S.opening S.list P.left stop.Marker) workers.entry.now workers.exit.now }
        { work_all(rt, alloc, workers, Stop::Marker, gate) },
        &mut || -> Result<(), RunFault>
            requires range { (from ≤ upto) × (upto ≤ length book.now) }
            requires ready { C.ready book.now from (length feeds.now.items) (C.state part.now) }
            requires sound { IsSound J.opening (C.state part.now) }
            ensures ran { OnOk result (C.ran (slice_range book.entry.now from upto)
                (C.state part.entry.now) (slots_in (λ b. (Feed-box b).left b.value) feeds.entry.now.items) (K.held out.entry.now)
                (C.state part.exit.now) (slots_in (λ b. (Feed-box b).left b.value) feeds.exit.now.items) (K.held out.exit.now)) }
            ensures ready { OnOk result (C.ready book.entry.now upto (length feeds.exit.now.items) (C.state part.exit.now)) }
            ensures sound { OnOk result (IsSound J.opening (C.state part.exit.now)) }
            ensures grows { OnOk result (IsPrefix (C.state part.entry.now).batches (C.state part.exit.now).batches) }
        { part.run(rt, book, from, upto, feeds, out) },
    );
    result
}

/// Whether the line at this place ends a round.
fn ends_round(book: &Book, k: usize) -> bool
    requires { k < length book.now }
    ensures ends { IsTrue result → (row : ℕ × RunbookLine) × (slice_get book.now k ≡ Some row) × (row.1 ≡ line.Round) }
    ensures other { IsFalse result → (row : ℕ × RunbookLine) × (slice_get book.now k ≡ Some row) × IsOther row.1 }
{
    let (_, line) = book.line(k);
    match line {
        BookLine::Round => true,
        BookLine::Pull { .. } => false,
        BookLine::Publish => false,
        BookLine::Check { .. } => false,
        BookLine::Change(_) => false,
        BookLine::Summary => false,
    }
}

/// What comes behind the last round: the control runs its other lines alone, the workers are told and
/// read what is left, and the rows and the closing line are written.
fn run_last<
    J: Naming + Send + Sync,
    R: Threads + Wait + Sync,
    C: Part<J>,
    P: PacketSource + Send,
    G: Gate + Sync,
    K: Sink,
>(
    rt: &R,
    alloc: Global,
    part: &mut C,
    book: &Book,
    from: usize,
    feeds: &mut Vec<Option<BoxedFeed>>,
    workers: &mut [Worker<Seat<J>, P>],
    gate: &G,
    out: &mut K,
) -> Result<(), LiveFault>
    requires range { from ≤ length book.now }
    requires others { AreOthers (slice_range book.now from (length book.now)) }
    requires ready { C.ready book.now from (length feeds.old.items) (C.state part.old) }
    requires sound { IsSound J.opening (C.state part.old) }
    requires workers { AllByRecursion (IsReady identity_of opening_of list_of P.left J.opening (C.state part.old).batches) workers.old }
    requires few { length workers.old ≤ 32 }
    ensures ran { OnOk result (IsLastOf C.ran J.opening (slice_range book.now from (length book.now))
        (stage (C.state part.old) (slots_in ⟦<BoxedFeed as Feed>⟧.left feeds.old.items) (K.held out.old) (map (station_of P.left) workers.old))
        (stage (C.state part.new) (slots_in ⟦<BoxedFeed as Feed>⟧.left feeds.new.items) (K.held out.new) (map (station_of P.left) workers.new))) }
{
    if let Err(fault) = part.run(rt, book, from, book.len(), feeds, out) {
        return Err(LiveFault::Run(fault));
    }
    settle_all(part, workers);
    work_all(rt, alloc, workers, Stop::End, gate);
    settle_all(part, workers);
    if let Err(fault) = write_all(part, workers, out) {
        return Err(fault);
    }
    match end(part, workers, out) {
        Ok(()) => Ok(()),
        Err(fault) => Err(LiveFault::Run(fault)),
    }
}

/// Writes the closing line.
fn end<J: Naming, C: Part<J>, S, P: PacketSource, K: Sink>(
    part: &C,
    workers: &[Worker<S, P>],
    out: &mut K,
) -> Result<(), RunFault>
    requires few { length workers.now ≤ 32 }
    requires fit { AllByRecursion (λ w. IsFit w) workers.now }
    ensures { OnOk result (Appends (K.held out.old) (K.held out.new)
        (done_line (length (C.state part.now).batches) (packet_count (map (station_of P.left) workers.now)))) }
{
    let mut text = Line::new();
    put_done(part.number(), count_packets(workers), &mut text);
    offer(&text, out)
}

/// How many packets the workers have read.
fn count_packets<S, P: PacketSource>(workers: &[Worker<S, P>]) -> u64
    requires few { length workers.now ≤ 32 }
    requires fit { AllByRecursion (λ w. IsFit w) workers.now }
    ensures count { result ≡ packet_count (map (station_of P.left) workers.now) }
    ensures bound { result ≤ 1000000000 * length workers.now }
{
    match workers.split_first() {
        Some((worker, rest)) => count_packets(rest) + worker.desk.place,
        None => 0,
    }
}

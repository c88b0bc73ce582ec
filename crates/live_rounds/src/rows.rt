//! The rows of a round are written, worker by worker.
ghost use Rattle.std.specs.Prelude.{◌≡◌, ◌≤◌, [], length, map, OnOk, IsOk, drop, take};
ghost use Rattle.std.specs.List.{AllByRecursion};
ghost use Rattle.std.specs.Io.KnownBytes.{Appends};
ghost use Rattle.live_rounds.specs.Parts.{IsSound};
ghost use Rattle.live_rounds.specs.Rows.{final_answer, final_row, row_line, rows_text};
ghost use Rattle.live_rounds.specs.Stations.{IsFine, station_of, table_of};
ghost use Rattle.live_rounds.specs.Rounds.{tables_text};

use crate::fault::LiveFault;
use crate::part::Part;
use crate::worker::Worker;
use control_core::{RunFault, offer};
use epoch_publish::Naming;
use feed_io::PacketSource;
use forward_worker::{CheckRow, CheckRows, Desk, WorkerEnd};
use report_text::put_packet;
use urpf_base::{Line, Sink, Verdict};

/// Writes the rows of each worker, and then looks how its round ended.
pub(crate) fn write_all<J: Naming, C: Part<J>, S, P: PacketSource, K: Sink>(
    part: &C,
    workers: &[Worker<S, P>],
    out: &mut K,
) -> Result<(), LiveFault>
    requires { IsSound J.opening (C.state part.now) }
    ensures wrote { OnOk result (Appends (K.held out.old) (K.held out.new)
        (tables_text J.opening (C.state part.now).batches (map (station_of P.left) workers.now))) }
    ensures fine { OnOk result (AllByRecursion (λ w. IsFine w.outcome) workers.now) }
{
    let Some((worker, rest)) = workers.split_first() else {
        return Ok(());
    };
    if let Err(fault) = write_rows(part, &worker.rows, worker.known, out) {
        return Err(LiveFault::Run(fault));
    }
    if let Err(fault) = look_at(&worker.desk, worker.outcome) {
        return Err(fault);
    }
    write_all(part, rest, out)
}

/// Writes the rows of one worker.
fn write_rows<J: Naming, C: Part<J>, K: Sink>(
    part: &C,
    rows: &CheckRows,
    known: bool,
    out: &mut K,
) -> Result<(), RunFault>
    requires { IsSound J.opening (C.state part.now) }
    ensures wrote { OnOk result (Appends (K.held out.old) (K.held out.new)
        (rows_text (map (final_row known J.opening (C.state part.now).batches) rows.now))) }
{
    for row in rows.items() {
        if let Err(fault) = write_row(part, row, known, out) {
            return Err(fault);
        }
    }
    Ok(())
}

/// Writes one row.
fn write_row<J: Naming, C: Part<J>, K: Sink>(
    part: &C,
    row: &CheckRow,
    known: bool,
    out: &mut K,
) -> Result<(), RunFault>
    requires { IsSound J.opening (C.state part.now) }
    ensures wrote { OnOk result (Appends (K.held out.old) (K.held out.new)
        (row_line (final_row known J.opening (C.state part.now).batches row.now))) }
{
    let (number, verdict) = answer(part, row, known);
    let mut text = Line::new();
    put_packet(
        row.worker, row.place, row.iface, row.source, verdict, number, &mut text,
    );
    offer(&text, out)
}

/// The answer of a row: that of the worker, where it is known to have been told of all publications
/// and names no later one, and else that of the control.
fn answer<J: Naming, C: Part<J>>(part: &C, row: &CheckRow, known: bool) -> (u64, Verdict)
    requires { IsSound J.opening (C.state part.now) }
    ensures { result ≡ final_answer known J.opening (C.state part.now).batches row.now }
{
    let (last, verdict) = part.judge(row.iface, row.source);
    if !known {
        return (last, verdict);
    }
    match row.answer {
        Some((number, own)) if number <= last => (number, own),
        Some(_) => (last, verdict),
        None => (last, verdict),
    }
}

/// How a round ended that is no fault: at a marker, or at the end.
fn look_at(desk: &Desk, outcome: WorkerEnd) -> Result<(), LiveFault>
    ensures fine { OnOk result (IsFine outcome) }
{
    let worker = desk.worker;
    match outcome {
        WorkerEnd::Marker => Ok(()),
        WorkerEnd::End => Ok(()),
        WorkerEnd::Failed => Err(LiveFault::Failed { worker }),
        WorkerEnd::Bad => Err(LiveFault::Bad {
            worker,
            place: desk.place.saturating_add(1),
        }),
        WorkerEnd::Limit => Err(LiveFault::Limit { worker }),
        WorkerEnd::OutOfMemory => Err(LiveFault::Run(RunFault::OutOfMemory)),
    }
}

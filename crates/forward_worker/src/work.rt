//! A round of work: records are read, and each packet is checked.
ghost use Rattle.std.specs.Prelude.{◌≡◌, ◌≢◌, ◌⊎◌, ◌↔◌, ◌+◌, ◌<◌, ◌≤◌, ℕ, List, [], ◌∷◌, ◌++◌, length, true};
ghost use Rattle.std.specs.Prelude.{Some, IfSome, IfNone, IsNone, false};
ghost use mathlib.Core.List.{IsPrefix};
ghost use Rattle.urpf_base.specs.Faults.{Rose};
ghost use Rattle.cover_table.specs.Judging.{judge};
ghost use Rattle.cover_table.specs.Snapshots.{fold};
ghost use Rattle.forward_worker.specs.Answers.{AllAnswered, AreAnswered, Asks};
ghost use Rattle.forward_worker.specs.Rounds.{EndsBy, HasRoom, IsRound, PassesOver};
ghost use Rattle.forward_worker.specs.declared.rows.CheckRow.{CheckRow as Row};

use crate::desk::{Desk, Stop, WorkerEnd, WorkerRound};
use crate::record_reader::{RecordRead, read_record};
use crate::rows::{CheckRow, CheckRows};
use epoch_publish::Checker;
use feed_io::{Gate, PacketSource};
use std::alloc::Global;
use urpf_base::{Addr, Verdict};

/// Reads records and checks packets until the round stops. There is one row for each packet that was
/// read, in order, however the round ended. Once the pass has refused a check it is asked no more,
/// and the further rows have no answer. A pass may be refused only where its count tells so.
pub fn work_round<C: Checker, P: PacketSource, G: Gate>(
    alloc: Global,
    pass: &mut C,
    desk: &mut Desk,
    packets: &mut P,
    stop: Stop,
    gate: &G,
) -> WorkerRound
    requires desk { (desk.old.place ≤ desk.old.taken) × (desk.old.taken ≤ desk.old.limit) }
    ensures desk { (desk.new.place ≤ desk.new.taken) × (desk.new.taken ≤ desk.new.limit) }
    // Which rows there are, and why the round ended.
    ensures round { IsRound stop desk.old desk.new (P.left packets.old) (P.left packets.new) [] result.rows result.outcome }
    ensures ended { (desk.new.ended ≡ true) ↔ ((desk.old.ended ≡ true) ⊎ (result.outcome ≡ WorkerEnd.End)) }
    ensures again { desk.old.ended ≡ true → (result.outcome ≡ WorkerEnd.End) × (result.rows ≡ []) }
    // The answers of the rows.
    ensures answered { AreAnswered (C.opening pass.new) (C.list pass.new) (length (C.list pass.old)) result.rows }
    ensures refused { AllAnswered result.rows ⊎ Rose (C.count pass.old) (C.count pass.new) }
    ensures kept { (C.identity pass.new ≡ C.identity pass.old) × (C.opening pass.new ≡ C.opening pass.old) }
    ensures grows { IsPrefix (C.list pass.old) (C.list pass.new) }
    // The faults of the source count those of the round.
    ensures later { P.faults packets.old ≤ P.faults packets.new }
    ensures once { P.faults packets.new ≤ P.faults packets.old + 1 }
    ensures no_fault { result.outcome ≢ WorkerEnd.Failed → P.faults packets.new ≡ P.faults packets.old }
    ensures failed { result.outcome ≡ WorkerEnd.Failed → Rose (P.faults packets.old) (P.faults packets.new) }
{
    let mut rows = Vec::new(alloc);
    let outcome = take_records(pass, desk, packets, stop, gate, &mut rows);
    WorkerRound {
        rows: CheckRows::of(rows),
        outcome,
    }
}

/// Reads and checks until the round stops.
fn take_records<C: Checker, P: PacketSource, G: Gate>(
    pass: &mut C,
    desk: &mut Desk,
    packets: &mut P,
    stop: Stop,
    gate: &G,
    rows: &mut Vec<CheckRow>,
) -> WorkerEnd
    requires desk { (desk.old.place ≤ desk.old.taken) × (desk.old.taken ≤ desk.old.limit) }
    requires rows { rows.old.items ≡ [] }
    ensures desk { (desk.new.place ≤ desk.new.taken) × (desk.new.taken ≤ desk.new.limit) }
    ensures round { IsRound stop desk.old desk.new (P.left packets.old) (P.left packets.new) [] rows.new.items result }
    ensures ended { (desk.new.ended ≡ true) ↔ ((desk.old.ended ≡ true) ⊎ (result ≡ WorkerEnd.End)) }
    ensures again { desk.old.ended ≡ true → (result ≡ WorkerEnd.End) × (rows.new.items ≡ []) }
    ensures answered { AreAnswered (C.opening pass.new) (C.list pass.new) (length (C.list pass.old)) rows.new.items }
    ensures refused { AllAnswered rows.new.items ⊎ Rose (C.count pass.old) (C.count pass.new) }
    ensures kept { (C.identity pass.new ≡ C.identity pass.old) × (C.opening pass.new ≡ C.opening pass.old) }
    ensures grows { IsPrefix (C.list pass.old) (C.list pass.new) }
    ensures later { P.faults packets.old ≤ P.faults packets.new }
    ensures once { P.faults packets.new ≤ P.faults packets.old + 1 }
    ensures no_fault { result ≢ WorkerEnd.Failed → P.faults packets.new ≡ P.faults packets.old }
    ensures failed { result ≡ WorkerEnd.Failed → Rose (P.faults packets.old) (P.faults packets.new) }
{
    if desk.ended {
        return WorkerEnd::End;
    }
    let mut asks = true;
    while desk.taken < desk.limit {
        if let Some(outcome) = take_record(pass, desk, packets, stop, gate, rows, &mut asks) {
            return outcome;
        }
    }
    WorkerEnd::Limit
}

/// Reads one record, and checks it if it is a packet. None where the round goes on.
fn take_record<C: Checker, P: PacketSource, G: Gate>(
    pass: &mut C,
    desk: &mut Desk,
    packets: &mut P,
    stop: Stop,
    gate: &G,
    rows: &mut Vec<CheckRow>,
    asks: &mut bool,
) -> Option<WorkerEnd>
    requires room { HasRoom desk.old }
    requires place { desk.old.place ≤ desk.old.taken }
    ensures over { IfNone result (PassesOver stop desk.old desk.new (P.left packets.old) (P.left packets.new) rows.old.items rows.new.items) }
    ensures more { IfNone result (desk.new.taken ≡ desk.old.taken + 1) }
    ensures place { IfNone result (desk.new.place ≤ desk.new.taken) }
    ensures ends { IfSome result (EndsBy stop desk.old desk.new (P.left packets.old) (P.left packets.new)) }
    ensures rows { IfSome result (λ _. rows.new.items ≡ rows.old.items) }
    ensures ended { IfSome result (λ outcome. (desk.new.ended ≡ true) ↔ (outcome ≡ WorkerEnd.End)) }
    ensures answered { (lowest first : ℕ) → Asks asks.old first (C.count pass.old) rows.old.items
        → AreAnswered (C.opening pass.old) (C.list pass.old) lowest rows.old.items
        → AreAnswered (C.opening pass.new) (C.list pass.new) lowest rows.new.items }
    ensures asks { (first : ℕ) → Asks asks.old first (C.count pass.old) rows.old.items
        → Asks asks.new first (C.count pass.new) rows.new.items }
    ensures kept { (C.identity pass.new ≡ C.identity pass.old) × (C.opening pass.new ≡ C.opening pass.old) }
    ensures grows { IsPrefix (C.list pass.old) (C.list pass.new) }
    ensures later { P.faults packets.old ≤ P.faults packets.new }
    ensures once { P.faults packets.new ≤ P.faults packets.old + 1 }
    ensures no_fault { result ≢ Some WorkerEnd.Failed → P.faults packets.new ≡ P.faults packets.old }
    ensures failed { result ≡ Some WorkerEnd.Failed → Rose (P.faults packets.old) (P.faults packets.new) }
{
    if rows.reserve(1).is_err() {
        return Some(WorkerEnd::OutOfMemory);
    }
    match read_record(packets) {
        RecordRead::Packet(iface, source) => {
            rows.push_reserved(check_packet(pass, desk, gate, asks, iface, source));
            None
        }
        RecordRead::Marker => {
            desk.taken += 1;
            match stop {
                Stop::Marker => Some(WorkerEnd::Marker),
                Stop::End => None,
            }
        }
        RecordRead::End => {
            desk.ended = true;
            Some(WorkerEnd::End)
        }
        RecordRead::Bad => Some(WorkerEnd::Bad),
        RecordRead::Failed => Some(WorkerEnd::Failed),
    }
}

/// The row of the next packet. Where the pass was refused before, it is not asked.
fn check_packet<C: Checker, G: Gate>(
    pass: &mut C,
    desk: &mut Desk,
    gate: &G,
    asks: &mut bool,
    iface: u16,
    source: Option<Addr>,
) -> CheckRow
    requires room { (desk.old.place ≤ desk.old.taken) × (desk.old.taken < desk.old.limit) }
    ensures worker { (result.worker ≡ desk.old.worker) × (desk.new.worker ≡ desk.old.worker) }
    ensures place { (result.place ≡ desk.old.place + 1) × (desk.new.place ≡ desk.old.place + 1) }
    ensures packet { (result.iface ≡ iface) × (result.source ≡ source) }
    ensures taken { desk.new.taken ≡ desk.old.taken + 1 }
    ensures desk { (desk.new.limit ≡ desk.old.limit) × (desk.new.ended ≡ desk.old.ended) }
    ensures answered { (lowest first : ℕ) (rows : List Row) → Asks asks.old first (C.count pass.old) rows
        → AreAnswered (C.opening pass.old) (C.list pass.old) lowest rows
        → AreAnswered (C.opening pass.new) (C.list pass.new) lowest (rows ++ result ∷ []) }
    ensures asks { (first : ℕ) (rows : List Row) → Asks asks.old first (C.count pass.old) rows
        → Asks asks.new first (C.count pass.new) (rows ++ result ∷ []) }
    ensures kept { (C.identity pass.new ≡ C.identity pass.old) × (C.opening pass.new ≡ C.opening pass.old) }
    ensures grows { IsPrefix (C.list pass.old) (C.list pass.new) }
{
    desk.place += 1;
    desk.taken += 1;
    let answer = check(pass, desk, gate, *asks, iface, source);
    *asks = answer.is_some();
    CheckRow {
        worker: desk.worker,
        place: desk.place,
        iface,
        source,
        answer,
    }
}

/// Checks the packet at the place of the desk, where the pass is asked. The gate is told before and
/// after.
fn check<C: Checker, G: Gate>(
    pass: &mut C,
    desk: &Desk,
    gate: &G,
    asks: bool,
    iface: u16,
    source: Option<Addr>,
) -> Option<(u64, Verdict)>
    ensures kept { (C.identity pass.new ≡ C.identity pass.old) × (C.opening pass.new ≡ C.opening pass.old) }
    ensures grows { IsPrefix (C.list pass.old) (C.list pass.new) }
    ensures number { IfSome result (λ a. a.0 ≡ length (C.list pass.new)) }
    ensures verdict { IfSome result (λ a. a.1 ≡ judge (fold (C.opening pass.new) (C.list pass.new)) iface source) }
    ensures answered { IfSome result (λ _. C.count pass.new ≡ C.count pass.old) }
    ensures refused { asks ≡ true → IsNone result → Rose (C.count pass.old) (C.count pass.new) }
    ensures unasked { asks ≡ false → IsNone result }
    ensures left { asks ≡ false → C.count pass.new ≡ C.count pass.old }
{
    if !asks {
        return None;
    }
    gate.before_check(desk.worker, desk.place);
    let answer = pass.check(iface, source);
    gate.after_check(desk.worker, desk.place);
    answer
}

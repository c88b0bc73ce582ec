//! A pull: items of a session are taken of its feed, one after the other, and the line of each reset
//! and that of the end are offered to a sink.
ghost use Rattle.std.specs.Prelude.{◌≡◌, ◌<◌, ◌≤◌, ◌↔◌, ℕ, Err, IfErr, List, OnErr, OnOk, length, map, take, vec_len};
ghost use Rattle.std.specs.Prelude.{false, true};
ghost use Rattle.std.specs.Io.KnownBytes.{Appends};
ghost use Rattle.urpf_base.specs.Faults.{CountsFault, HasCause};
ghost use Rattle.urpf_base.specs.declared.kinds.Kind.{Kind};
ghost use Rattle.report_text.specs.Lines.{end_line};
ghost use Rattle.control_core.specs.Controls.{CountsOne, PullsOne};
ghost use Rattle.control_core.specs.EngineRows.{HasSession, RowsFollow};
ghost use Rattle.control_core.specs.Kept.{IsKept};
ghost use Rattle.control_core.specs.Peers.{peer_of};
ghost use Rattle.control_core.specs.Pulls.{Pull, reset_text};
ghost use Rattle.control_core.specs.Pulls as pulls;
ghost use Rattle.control_core.specs.Slots.{CountsSlot, PullsSlot};

use crate::counted_engine::CountedEngine;
use crate::limits::{ITEM_LIMIT, Limits, RunFault};
use crate::offering::offer;
use crate::peering::{Peering, Turn};
use feed_io::Feed;
use report_text::{put_end, put_reset};
use rpf_plain::SetEngine;
use std::alloc::Global;
use urpf_base::{Line, ResetCause, Sink};

/// Takes the next `count` items of the session, or all, within the limits.
fn pull_items<E: SetEngine, F: Feed, K: Sink>(
    alloc: Global,
    peering: &mut Peering,
    sets: &mut CountedEngine<E>,
    limits: &Limits,
    feed: &mut F,
    count: Option<u64>,
    out: &mut K,
) -> Result<(), RunFault>
    requires small { limits.now.items ≤ ITEM_LIMIT }
    requires unmet { peering.old.ended ≡ false }
    requires ready { HasSession peering.old.session.config.iface peering.old.rib sets.old }
    ensures pull { Pull count limits.now (F.left feed.old) (F.left feed.new)
        (K.held out.old) (K.held out.new) result (peer_of peering.old) (peer_of peering.new) }
    ensures feed { CountsFault (result ≡ Err (RunFault.ReadFault peering.old.number))
        (F.faults feed.old) (F.faults feed.new) }
    ensures sink { CountsFault (result ≡ Err RunFault.WriteFault)
        (K.faults out.old) (K.faults out.new) }
    ensures rows { RowsFollow peering.old.session.config.iface peering.old.rib peering.new.rib sets.old sets.new }
{
    let session = peering.number;
    let begun = peering.session.items();
    while asks_more(count, peering.session.items().saturating_sub(begun)) {
        if limits.items <= peering.session.items() {
            return Err(RunFault::ItemLimit(session));
        }
        match peering.turn(alloc, sets, feed, limits) {
            Ok(Turn::Took(reset)) => {
                if let Err(fault) = tell_reset(session, peering.session.items(), reset, out) {
                    return Err(fault);
                }
            }
            Ok(Turn::Octets) => {}
            Ok(Turn::End(rest)) => return tell_end(session, peering.session.items(), rest, out),
            Err(fault) => return Err(fault),
        }
    }
    Ok(())
}

/// Takes the next items of the feed in the slot of a session, and drops the feed at its end. An empty
/// slot is left so.
fn pull_slot<E: SetEngine, F: Feed, K: Sink>(
    alloc: Global,
    peering: &mut Peering,
    sets: &mut CountedEngine<E>,
    limits: &Limits,
    slot: &mut Option<F>,
    count: Option<u64>,
    out: &mut K,
) -> Result<(), RunFault>
    requires small { limits.now.items ≤ ITEM_LIMIT }
    requires unmet { peering.old.ended ≡ false }
    requires ready { HasSession peering.old.session.config.iface peering.old.rib sets.old }
    ensures pull { PullsSlot F.left count limits.now slot.old slot.new
        (K.held out.old) (K.held out.new) result (peer_of peering.old) (peer_of peering.new) }
    ensures feed { CountsSlot F.faults (result ≡ Err (RunFault.ReadFault peering.old.number)) slot.old slot.new }
    ensures sink { CountsFault (result ≡ Err RunFault.WriteFault)
        (K.faults out.old) (K.faults out.new) }
    ensures rows { RowsFollow peering.old.session.config.iface peering.old.rib peering.new.rib sets.old sets.new }
{
    let Some(feed) = slot else {
        return Ok(());
    };
    let result = pull_items(alloc, peering, sets, limits, feed, count, out);
    if peering.ended {
        *slot = None;
    }
    result
}

/// Takes the next items of one session of several. A session whose feed came to its end is left alone.
pub fn pull_one<E: SetEngine, F: Feed, K: Sink>(
    alloc: Global,
    peers: &mut Vec<Peering>,
    sets: &mut CountedEngine<E>,
    limits: &Limits,
    slots: &mut Vec<Option<F>>,
    session: u32,
    count: Option<u64>,
    out: &mut K,
) -> Result<(), RunFault>
    requires session { session < vec_len peers.old }
    requires slots { vec_len slots.old ≡ vec_len peers.old }
    requires kept { (kinds : List (ℕ × Kind)) × IsKept (map peer_of peers.old.items) kinds sets.old limits.now }
    ensures pull { PullsOne F.left session count limits.now slots.old.items slots.new.items
        (K.held out.old) (K.held out.new) result (map peer_of peers.old.items) (map peer_of peers.new.items) }
    ensures feed { CountsOne F.faults session (result ≡ Err (RunFault.ReadFault session))
        slots.old.items slots.new.items }
    ensures sink { CountsFault (result ≡ Err RunFault.WriteFault)
        (K.faults out.old) (K.faults out.new) }
    ensures kept { (kinds : List (ℕ × Kind)) → IsKept (map peer_of peers.old.items) kinds sets.old limits.now
        → IsKept (map peer_of peers.new.items) kinds sets.new limits.now }
    ensures pairs { sets.new.world.pairs ≡ sets.old.world.pairs }
    ensures base { sets.new.base ≡ sets.old.base }
{
    let place = session as usize;
    if peers[place].ended {
        return Ok(());
    }
    pull_slot(
        alloc,
        &mut peers[place],
        sets,
        limits,
        &mut slots[place],
        count,
        out,
    )
}

/// Whether a pull stopped for want of memory.
pub fn wants_memory(pulled: &Result<(), RunFault>) -> bool
    ensures { result ≡ true ↔ pulled.now ≡ Err RunFault.OutOfMemory }
{
    matches!(pulled, Err(RunFault::OutOfMemory))
}

/// Whether a pull asks for more items than so many.
fn asks_more(count: Option<u64>, taken: u64) -> bool
    ensures { result ≡ pulls.asks_more count taken }
{
    match count {
        Some(count) => taken < count,
        None => true,
    }
}

/// Offers the line of the item of this number to the sink where it is a reset.
fn tell_reset<K: Sink>(
    session: u32,
    item: u64,
    reset: Option<ResetCause>,
    out: &mut K,
) -> Result<(), RunFault>
    ensures ok { OnOk result (Appends (K.held out.old) (K.held out.new) (reset_text session item reset)) }
    ensures err { IfErr result (λ fault. fault ≡ RunFault.WriteFault) }
    ensures cut_short { OnErr result ((n : ℕ) × (n ≤ length (reset_text session item reset))
        × Appends (K.held out.old) (K.held out.new) (take n (reset_text session item reset))) }
    ensures cause { HasCause (K.faults out.old) (K.faults out.new) result }
{
    let mut line = Line::new();
    if let Some(cause) = reset {
        put_reset(session, item, &cause, &mut line);
    }
    offer(&line, out)
}

/// Offers the end line to the sink, after so many items and with so many octets left.
fn tell_end<K: Sink>(session: u32, items: u64, rest: u64, out: &mut K) -> Result<(), RunFault>
    ensures ok { OnOk result (Appends (K.held out.old) (K.held out.new) (end_line session items rest)) }
    ensures err { IfErr result (λ fault. fault ≡ RunFault.WriteFault) }
    ensures cut_short { OnErr result ((n : ℕ) × (n ≤ length (end_line session items rest))
        × Appends (K.held out.old) (K.held out.new) (take n (end_line session items rest))) }
    ensures cause { HasCause (K.faults out.old) (K.faults out.new) result }
{
    let mut line = Line::new();
    put_end(session, items, rest, &mut line);
    offer(&line, out)
}

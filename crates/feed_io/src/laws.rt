//! Laws on the trace format and on what the generator sends, as contracts of functions without
//! code.
ghost use Rattle.std.specs.Prelude.{◌≡◌, ℕ, ◌<◌, List, [], ◌∷◌, ◌++◌, length, None};
ghost use Rattle.urpf_base.specs.Series.{Begins, SpellsAll};
ghost use Rattle.feed_io.specs.Events.{Event, octets};
ghost use Rattle.feed_io.specs.Packets.{BeginsWith, PacketRecord, SpellsRecord, record_front, records_in};
ghost use Rattle.feed_io.specs.Spelling.{SpellsEvent, SpellsPiece};
ghost use Rattle.feed_io.specs.Traces.{event_front, trace_events};

use crate::limited::FILE_OCTETS;
use crate::messages::{
    AS_PATH, AS_SEQUENCE, CAPABILITIES, FOUR_OCTET_AS, KEEPALIVE, NEXT_HOP, OPEN, ORIGIN, SPEAKER,
    UPDATE,
};
use crate::packet_source::{MARKER, PACKET};
use crate::trace_head::{DOWN, ELAPSED, OCTETS, UP};

/// The first octets of events and of packet records have these numbers, and of a file at most 4 TiB are read. The messages
/// of the generator have the numbers of RFC 4271, sections 4.1 and 4.3, RFC 5492, section 4, and
/// RFC 6793, section 3. Definitions cite them by name.
pub fn assigned_numbers()
    ensures codes { (UP ≡ 1) × (OCTETS ≡ 2) × (DOWN ≡ 3) × (ELAPSED ≡ 4) }
    ensures records { (PACKET ≡ 1) × (MARKER ≡ 2) }
    ensures limit { FILE_OCTETS ≡ 4398046511104 }
    ensures messages { (OPEN ≡ 1) × (UPDATE ≡ 2) × (KEEPALIVE ≡ 4) }
    ensures capability { (CAPABILITIES ≡ 2) × (FOUR_OCTET_AS ≡ 65) }
    ensures attributes { (ORIGIN ≡ 1) × (AS_PATH ≡ 2) × (NEXT_HOP ≡ 3) × (AS_SEQUENCE ≡ 2) }
    ensures speaker { SPEAKER ≡ 64499 }
{}

/// A trace that is spellings of events has just these events, whatever stands behind them is read
/// next, and of an octets event that is cut off the octets that are there are its last event.
pub fn one_trace()
    ensures whole { (text : List ℕ) (events : List Event) → SpellsAll SpellsEvent text events
        → trace_events text ≡ events }
    ensures next { (text rest : List ℕ) (events : List Event) → SpellsAll SpellsEvent text events
        → trace_events (text ++ rest) ≡ events ++ trace_events rest }
    ensures broken { (text piece : List ℕ) (count : ℕ) → SpellsPiece text count piece
        → 0 < length piece → length piece < count → trace_events text ≡ octets piece ∷ [] }
    ensures off { (text rest : List ℕ) (e : Event) → Begins SpellsEvent text e rest
        → event_front text ≡ None → ⊥ }
{}

/// Spellings of records one after the other are just these records, whatever stands behind them,
/// and where no record is found none is spelled.
pub fn one_list_of_records()
    ensures whole { (text : List ℕ) (records : List PacketRecord) → SpellsAll SpellsRecord text records
        → records_in text ≡ records }
    ensures begins { (text rest : List ℕ) (records : List PacketRecord) → SpellsAll SpellsRecord text records
        → BeginsWith (text ++ rest) records rest }
    ensures next { (text rest : List ℕ) (records : List PacketRecord) → BeginsWith text records rest
        → records_in text ≡ records ++ records_in rest }
    ensures off { (text rest : List ℕ) (r : PacketRecord) → Begins SpellsRecord text r rest
        → record_front text ≡ None → ⊥ }
{}

//! The lines of a run: counts come in, and the line that tells them goes out.
//!
//! `run interfaces I sessions S pairs P skipped K`, `publish N edits E cells C items K0 K1 ..`,
//! `end S items K rest R`, `reset S item K fault C D`, `reset S item K notified C D`,
//! `reset S item K closed`, `round R`, `summary rows R pairs P` and `done publications N packets K`,
//! each with a line feed.
ghost use Rattle.std.specs.Prelude.{◌≡◌, ◌+◌, ◌*◌, ◌≤◌, [], ◌∷◌, ◌++◌, length, codes, decimal};
ghost use Rattle.report_text.specs.Lines.{run_line, publish_line, end_line, reset_line, round_line};
ghost use Rattle.report_text.specs.Lines.{summary_line, done_line, spaced, cause_text};

use crate::fields::{WORD_OCTETS, put_field};
use ip_text::put_number;
use urpf_base::{Line, ResetCause};

/// The first line: how many interfaces and sessions, how many distinct pairs, and how many records
/// or objects of the pair table were skipped.
pub fn put_run(interfaces: u64, sessions: u64, pairs: u64, skipped: u64, to: &mut Line)
    requires { to.old ≡ [] }
    ensures { to.new ≡ run_line interfaces sessions pairs skipped }
{
    put_field(b"run interfaces ", interfaces, to);
    put_field(b" sessions ", sessions, to);
    put_field(b" pairs ", pairs, to);
    put_field(b" skipped ", skipped, to);
    to.push(b"\n");
}

/// The line of a publication, with the number of items of each session, at most 128 of them.
/// Where there is no session, nothing follows `items`.
pub fn put_mark(number: u64, edits: u64, cells: u64, items: &[u64], to: &mut Line)
    requires empty { to.old ≡ [] }
    requires sessions { length items.now ≤ 128 }
    ensures { to.new ≡ publish_line number edits cells items.now }
{
    put_field(b"publish ", number, to);
    put_field(b" edits ", edits, to);
    put_field(b" cells ", cells, to);
    to.push(b" items");
    put_items(items, to);
    to.push(b"\n");
}

/// Each number after a space, at most 21 octets.
fn put_items(items: &[u64], to: &mut Line)
    requires room { length to.old + 4096 ≤ 8192 }
    requires few { length items.now ≤ 128 }
    ensures text { to.new ≡ to.old ++ spaced items.now }
    ensures short { length to.new ≤ length to.old + 21 * length items.now }
{
    for item in items {
        put_item(*item, to);
    }
}

/// A space and the number, at most 21 octets.
fn put_item(item: u64, to: &mut Line)
    requires { length to.old + 96 ≤ 8192 }
    ensures text { to.new ≡ to.old ++ (32 ∷ decimal item) }
    ensures short { length to.new ≤ length to.old + 21 }
{
    to.push(b" ");
    put_number(item, to);
}

/// The end of a session: its number of items, and how many octets came after the last whole
/// message.
pub fn put_end(session: u32, items: u64, rest: u64, to: &mut Line)
    requires { to.old ≡ [] }
    ensures { to.new ≡ end_line session items rest }
{
    put_field(b"end ", session as u64, to);
    put_field(b" items ", items, to);
    put_field(b" rest ", rest, to);
    to.push(b"\n");
}

/// The reset of a session: the number of the item that it came at, and its cause.
pub fn put_reset(session: u32, item: u64, cause: &ResetCause, to: &mut Line)
    requires { to.old ≡ [] }
    ensures { to.new ≡ reset_line session item cause.now }
{
    put_field(b"reset ", session as u64, to);
    put_field(b" item ", item, to);
    put_cause(cause, to);
    to.push(b"\n");
}

/// A space and the cause of a reset, with the error code and the subcode where it has them.
fn put_cause(cause: &ResetCause, to: &mut Line)
    requires { length to.old + 192 ≤ 8192 }
    ensures text { to.new ≡ to.old ++ codes " " ++ cause_text cause.now }
    ensures short { length to.new ≤ length to.old + 104 }
{
    match *cause {
        ResetCause::Fault(code, sub) => put_codes(b" fault ", code, sub, to),
        ResetCause::Notified(code, sub) => put_codes(b" notified ", code, sub, to),
        ResetCause::Closed => to.push(b" closed"),
    }
}

/// The word, which brings its own spaces, an error code and its subcode (RFC 4271, section 4.5).
fn put_codes(word: &[u8], code: u8, sub: u8, to: &mut Line)
    requires word_fits { length word.now ≤ WORD_OCTETS }
    requires room { length to.old + 192 ≤ 8192 }
    ensures text { to.new ≡ to.old ++ word.now ++ decimal code ++ codes " " ++ decimal sub }
    ensures short { length to.new ≤ length to.old + 104 }
{
    put_field(word, code as u64, to);
    put_field(b" ", sub as u64, to);
}

/// The end of a round, by its number, from 1.
pub fn put_round(round: u64, to: &mut Line)
    requires { to.old ≡ [] }
    ensures { to.new ≡ round_line round }
{
    put_field(b"round ", round, to);
    to.push(b"\n");
}

/// The summary: how many rows and how many pairs there are now.
pub fn put_summary(rows: u64, pairs: u64, to: &mut Line)
    requires { to.old ≡ [] }
    ensures { to.new ≡ summary_line rows pairs }
{
    put_field(b"summary rows ", rows, to);
    put_field(b" pairs ", pairs, to);
    to.push(b"\n");
}

/// The last line: the number of the last publication, and how many packets had a line.
pub fn put_done(publications: u64, packets: u64, to: &mut Line)
    requires { to.old ≡ [] }
    ensures { to.new ≡ done_line publications packets }
{
    put_field(b"done publications ", publications, to);
    put_field(b" packets ", packets, to);
    to.push(b"\n");
}

//! A status comes in, and what it says on standard error goes out, and the number that the program
//! ends with.
ghost use Rattle.std.specs.Prelude.{◌≡◌, ◌+◌, ◌≤◌, [], ◌++◌, length, codes, decimal};
ghost use Rattle.urpf_cli.specs.StatusText.{book_kind_text, config_kind_text, exit_of, object_text, status_line};
ghost use Rattle.urpf_cli.specs.StatusText.{status_text};

use crate::status::{Object, Status};
use ip_text::put_number;
use router_config::ConfigKind;
use runbook::BookKind;
use urpf_base::Line;

/// How all commands are used, also those that do not exist yet.
const USAGE: &[u8] =
    b"usage: check SESSION SOURCE | offline CONFIG BOOK PAIRS S... | live CONFIG BOOK PAIRS S... : P...";

/// Writes the line of the status, which begins with `urpf: `. Done has none.
pub fn put_status(status: &Status, to: &mut Line)
    requires { to.old ≡ [] }
    ensures { to.new ≡ status_line status.now }
{
    if *status == Status::Done {
        return;
    }
    to.push(b"urpf: ");
    put_text(status, to);
    to.push(b"\n");
}

/// The number that the program ends with.
pub fn exit_code(status: &Status) -> u8
    ensures { result ≡ exit_of status.now }
{
    match status {
        Status::Done => 0,
        Status::Usage => 2,
        Status::BadConfig { .. } => 3,
        Status::BadBook { .. } => 4,
        Status::SessionCount { .. } => 5,
        Status::TooManyPairs => 6,
        Status::TooLong(_) => 7,
        Status::ReadFault(_) => 8,
        Status::WriteFault => 9,
        Status::ItemLimit { .. } => 11,
        Status::OctetLimit { .. } => 11,
        Status::BadSession { .. } => 13,
        Status::Unsupported { .. } => 14,
        Status::OutOfMemory => 16,
    }
}

fn put_text(status: &Status, to: &mut Line)
    requires { length to.old + 1024 ≤ 8192 }
    ensures text { to.new ≡ to.old ++ status_text status.now }
    ensures short { length to.new ≤ length to.old + 512 }
{
    match status {
        Status::Done => {}
        Status::Usage => to.push(USAGE),
        Status::BadConfig { kind, index } => put_bad_config(*kind, *index, to),
        Status::BadBook { line, kind } => put_bad_book(*line, *kind, to),
        Status::SessionCount { given, wanted } => put_session_count(*given, *wanted, to),
        Status::TooManyPairs => to.push(b"too many pairs"),
        Status::TooLong(object) => {
            put_object(*object, to);
            to.push(b" too long");
        }
        Status::ReadFault(object) => {
            to.push(b"read fault on ");
            put_object(*object, to);
        }
        Status::WriteFault => to.push(b"write fault"),
        Status::ItemLimit { session } => put_item_limit(*session, to),
        Status::OctetLimit { session } => put_octet_limit(*session, to),
        Status::BadSession { code, sub, place } => put_bad_session(*code, *sub, *place, to),
        Status::Unsupported { place } => put_unsupported(*place, to),
        Status::OutOfMemory => to.push(b"out of memory"),
    }
}

fn put_object(object: Object, to: &mut Line)
    requires { length to.old + 128 ≤ 8192 }
    ensures text { to.new ≡ to.old ++ object_text object }
    ensures short { length to.new ≤ length to.old + 32 }
{
    match object {
        Object::Config => to.push(b"config"),
        Object::Book => to.push(b"book"),
        Object::Pairs => to.push(b"pairs"),
        Object::Stream => to.push(b"stream"),
        Object::Session(session) => put_session(session, to),
    }
}

/// Appends the session that is named by its number.
fn put_session(session: u32, to: &mut Line)
    requires { length to.old + 128 ≤ 8192 }
    ensures text { to.new ≡ to.old ++ codes "session " ++ decimal session }
    ensures short { length to.new ≤ length to.old + 32 }
{
    to.push(b"session ");
    put_number(u64::from(session), to);
}

fn put_bad_book(line: u32, kind: BookKind, to: &mut Line)
    requires { length to.old + 512 ≤ 8192 }
    ensures text { to.new ≡ to.old ++ status_text (Status.BadBook line kind) }
    ensures short { length to.new ≤ length to.old + 128 }
{
    to.push(b"book line ");
    put_number(u64::from(line), to);
    to.push(b" ");
    put_book_kind(kind, to);
}

fn put_book_kind(kind: BookKind, to: &mut Line)
    requires { length to.old + 64 ≤ 8192 }
    ensures text { to.new ≡ to.old ++ book_kind_text kind }
    ensures short { length to.new ≤ length to.old + 32 }
{
    match kind {
        BookKind::Syntax => to.push(b"Syntax"),
        BookKind::Session => to.push(b"Session"),
        BookKind::Iface => to.push(b"Iface"),
        BookKind::Rounds => to.push(b"Rounds"),
    }
}

fn put_bad_config(kind: ConfigKind, index: u32, to: &mut Line)
    requires { length to.old + 512 ≤ 8192 }
    ensures text { to.new ≡ to.old ++ status_text (Status.BadConfig kind index) }
    ensures short { length to.new ≤ length to.old + 128 }
{
    to.push(b"config ");
    put_config_kind(kind, to);
    to.push(b" at ");
    put_number(u64::from(index), to);
}

fn put_config_kind(kind: ConfigKind, to: &mut Line)
    requires { length to.old + 64 ≤ 8192 }
    ensures text { to.new ≡ to.old ++ config_kind_text kind }
    ensures short { length to.new ≤ length to.old + 32 }
{
    match kind {
        ConfigKind::NotToml => to.push(b"NotToml"),
        ConfigKind::UnknownKey => to.push(b"UnknownKey"),
        ConfigKind::Interfaces => to.push(b"Interfaces"),
        ConfigKind::TooManyInterfaces => to.push(b"TooManyInterfaces"),
        ConfigKind::Number => to.push(b"Number"),
        ConfigKind::Repeat => to.push(b"Repeat"),
        ConfigKind::Role => to.push(b"Role"),
        ConfigKind::Mode => to.push(b"Mode"),
        ConfigKind::Sessions => to.push(b"Sessions"),
        ConfigKind::TooManySessions => to.push(b"TooManySessions"),
        ConfigKind::Interface => to.push(b"Interface"),
        ConfigKind::PeerAs => to.push(b"PeerAs"),
        ConfigKind::Hold => to.push(b"Hold"),
        ConfigKind::MaxPrefixes => to.push(b"MaxPrefixes"),
    }
}

fn put_session_count(given: u32, wanted: u32, to: &mut Line)
    requires { length to.old + 512 ≤ 8192 }
    ensures text { to.new ≡ to.old ++ status_text (Status.SessionCount given wanted) }
    ensures short { length to.new ≤ length to.old + 128 }
{
    put_number(u64::from(given), to);
    to.push(b" sessions given, ");
    put_number(u64::from(wanted), to);
    to.push(b" wanted");
}

/// Appends the message that is named by its place.
fn put_message(place: u64, to: &mut Line)
    requires { length to.old + 128 ≤ 8192 }
    ensures text { to.new ≡ to.old ++ codes "message " ++ decimal place }
    ensures short { length to.new ≤ length to.old + 32 }
{
    to.push(b"message ");
    put_number(place, to);
}

fn put_bad_session(code: u8, sub: u8, place: u64, to: &mut Line)
    requires { length to.old + 512 ≤ 8192 }
    ensures text { to.new ≡ to.old ++ status_text (Status.BadSession code sub place) }
    ensures short { length to.new ≤ length to.old + 128 }
{
    put_message(place, to);
    to.push(b" fault ");
    put_number(u64::from(code), to);
    to.push(b" ");
    put_number(u64::from(sub), to);
}

fn put_unsupported(place: u64, to: &mut Line)
    requires { length to.old + 512 ≤ 8192 }
    ensures text { to.new ≡ to.old ++ status_text (Status.Unsupported place) }
    ensures short { length to.new ≤ length to.old + 128 }
{
    put_message(place, to);
    to.push(b" not supported");
}

fn put_item_limit(session: u32, to: &mut Line)
    requires { length to.old + 512 ≤ 8192 }
    ensures text { to.new ≡ to.old ++ status_text (Status.ItemLimit session) }
    ensures short { length to.new ≤ length to.old + 128 }
{
    put_session(session, to);
    to.push(b" at item limit");
}

fn put_octet_limit(session: u32, to: &mut Line)
    requires { length to.old + 512 ≤ 8192 }
    ensures text { to.new ≡ to.old ++ status_text (Status.OctetLimit session) }
    ensures short { length to.new ≤ length to.old + 128 }
{
    put_session(session, to);
    to.push(b" at octet limit");
}

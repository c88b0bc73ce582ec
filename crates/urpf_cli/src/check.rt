//! `check SESSION SOURCE`: words, a recorded session and a sink come in. The line that says whether
//! the session's routes admit the source goes to the sink, and how the command ended goes out.
ghost use Rattle.std.specs.Prelude.{None, ◌≡◌, ◌↔◌, ◌⊎◌, ◌<◌, [], ℕ, Err, OnOk, OnErr, IfErr, IfSome, IsSomeAnd, length, map};
ghost use Rattle.std.specs.Prelude.{string_bytes};
ghost use Rattle.urpf_base.specs.declared.address.Addr.{Addr};
ghost use Rattle.urpf_base.specs.Address.{Block};
ghost use Rattle.urpf_base.specs.Faults.{CountsFault, Rose};
ghost use Rattle.adj_rib.specs.Routes.{routes_at};
ghost use Rattle.control_core.specs.Table.{HoldsRoutes};
ghost use Rattle.urpf_cli.specs.CheckOne.{CheckEnd, ComesTo, HasFaultOrMemory, IsCheckLine, WritesFront, WritesLine};
ghost use Rattle.urpf_cli.specs.Session.{updates_of};
ghost use Rattle.urpf_cli.specs.Statuses.{IsCheckStatus, status_of_check, status_of_stream};
ghost use Rattle.urpf_cli.specs.Words.{AreCheckWords};
ghost use Rattle.urpf_cli.specs.declared.session.SessionFault.{SessionFault};

use crate::session::{SessionFault, read_session};
use crate::status::{Object, Status};
use crate::words::check_source;
use adj_rib::AdjRib;
use bgp_update::{UPDATE_MESSAGE_ERROR, UpdateView};
use bgp_wire::MESSAGE_HEADER_ERROR;
use control_core::apply_item;
use report_text::put_one;
use std::alloc::Global;
use urpf_base::{Addr, Failed, Line, OutOfMemory, Sink, Source, TextFault, read_text, write_all};

/// The most octets of a stream.
pub const STREAM_OCTETS: usize = 16_777_216;

/// Judges the address SOURCE over the whole stream of one session that is already established, with
/// four-octet AS numbers, and writes one line. The words are those after the program's name.
///
/// The answers come in this order: the words, the read of the stream or its length, the first
/// message that cannot be read, the write.
pub fn check_one<S: Source, K: Sink>(
    alloc: Global,
    words: &[String],
    session: &mut S,
    out: &mut K,
) -> Status
    // When each answer comes.
    ensures usage { result ≡ Status.Usage
        ↔ ((source : Addr) → AreCheckWords (map string_bytes words.now) source → ⊥) }
    ensures stream { CountsFault (result ≡ Status.ReadFault Object.Stream)
        (S.faults session.old) (S.faults session.new) }
    ensures sink { CountsFault (result ≡ Status.WriteFault) (K.faults out.old) (K.faults out.new) }
    ensures known { IsCheckStatus result }
    ensures found { (end : CheckEnd) → result ≡ status_of_check end → (result ≡ Status.OutOfMemory → ⊥)
        → IfSome (S.left session.old) (λ stream. ComesTo (map string_bytes words.now) stream end) }

    // Where nothing fails, the answer is the one that the words and the stream decide.
    ensures only { (end : CheckEnd)
        → IsSomeAnd (S.left session.old) (λ stream. ComesTo (map string_bytes words.now) stream end)
        → ¬ Rose (S.faults session.old) (S.faults session.new)
        → ¬ Rose (K.faults out.old) (K.faults out.new)
        → (result ≡ status_of_check end) ⊎ (result ≡ Status.OutOfMemory) }

    // An empty stream is judged without memory.
    ensures memory { result ≡ Status.OutOfMemory → IfSome (S.left session.old)
        (λ stream. 0 < length stream) }

    // What the sink took.
    ensures done { result ≡ Status.Done → IfSome (S.left session.old)
        (λ stream. WritesLine (map string_bytes words.now) stream (K.held out.old) (K.held out.new)) }
    ensures cut_short { result ≡ Status.WriteFault → IfSome (S.left session.old)
        (λ stream. WritesFront (map string_bytes words.now) stream (K.held out.old) (K.held out.new)) }
    ensures misused { result ≡ Status.Usage → session.new ≡ session.old }
    ensures quiet { (result ≡ Status.Done → ⊥) → (result ≡ Status.WriteFault → ⊥)
        → out.new ≡ out.old }
{
    let Some(source) = check_source(words) else {
        return Status::Usage;
    };
    let stream = match read_text(alloc, session, STREAM_OCTETS) {
        Ok(stream) => stream,
        Err(TextFault::Failed) => return Status::ReadFault(Object::Stream),
        Err(TextFault::TooLong) => return Status::TooLong(Object::Stream),
        Err(TextFault::OutOfMemory) => return Status::OutOfMemory,
    };
    let mut line = Line::new();
    match judge(alloc, &stream, &source, &mut line) {
        Ok(()) => {}
        Err(fault) => return status_of(fault),
    }
    match write_all(out, line.bytes()) {
        Ok(()) => Status::Done,
        Err(Failed) => Status::WriteFault,
    }
}

/// Writes the line for the source into the empty line, or says why the stream cannot be read.
fn judge(alloc: Global, stream: &[u8], source: &Addr, line: &mut Line) -> Result<(), SessionFault>
    requires { line.old ≡ [] }
    ensures ok { OnOk result (IsCheckLine stream.now source.now line.new) }
    ensures err { IfErr result (HasFaultOrMemory stream.now) }
    ensures memory { result ≡ Err SessionFault.OutOfMemory → 0 < length stream.now }
{
    let session = match read_session(alloc, stream) {
        Ok(session) => session,
        Err(fault) => return Err(fault),
    };
    let mut rib = AdjRib::new(alloc);
    if let Err(OutOfMemory) = take_all(&mut rib, &session.items) {
        return Err(SessionFault::OutOfMemory);
    }
    let passes = rib.any_covers(source);
    let messages = session.items.len() as u64;
    let prefixes = rib.len() as u64;
    put_one(source, passes, messages, prefixes, session.rest, line);
    Ok(())
}

/// Takes all items into the empty table.
fn take_all(rib: &mut AdjRib, items: &[Option<UpdateView<'_>>]) -> Result<(), OutOfMemory>
    requires { (p : Block) → routes_at rib.old p ≡ None }
    ensures ok { OnOk result (HoldsRoutes (updates_of items.now) rib.new) }
    ensures memory { OnErr result (0 < length items.now) }
{
    for item in items {
        apply_item(rib, item.as_ref())?;
    }
    Ok(())
}

/// The status of a stream that cannot be read.
fn status_of(fault: SessionFault) -> Status
    ensures { result ≡ status_of_stream fault }
{
    match fault {
        SessionFault::Header { sub, place } => Status::BadSession {
            code: MESSAGE_HEADER_ERROR,
            sub,
            place,
        },
        SessionFault::Update { sub, place } => Status::BadSession {
            code: UPDATE_MESSAGE_ERROR,
            sub,
            place,
        },
        SessionFault::Unsupported { place } => Status::Unsupported { place },
        SessionFault::OutOfMemory => Status::OutOfMemory,
    }
}

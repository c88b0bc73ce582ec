//! The stream of an established session, read whole: its octets come in, and what its messages say
//! and how much of a message is left go out, or the first message that cannot be read
//! (RFC 4271, sections 4 and 6).
ghost use Rattle.std.specs.Prelude.{◌≡◌, ◌≤◌, ◌<◌, ℕ, Option, Err, IfOk, length};
ghost use Rattle.bgp_wire.specs.declared.kinds.MsgKind.{MsgKind};
ghost use Rattle.urpf_base.specs.RouteUpdates.{RouteUpdate};
ghost use Rattle.urpf_cli.specs.Session.{FailsBy, IsBadUpdateAt, IsFaultAt, IsUnsupported, IsUnsupportedAt, Leaves};
ghost use Rattle.urpf_cli.specs.Session.{SaysBy};

use as_path::Width;
use bgp_update::{UpdateFault, UpdateView, read_update};
use bgp_wire::{FrameState, Framer, HEADER_OCTETS, MsgKind};
use std::alloc::Global;

/// What a stream holds. It borrows the octets.
#[derive(Drop)]
pub struct Session<'a> {
    /// What each whole message says: an UPDATE, or None for a KEEPALIVE.
    pub items: Vec<Option<UpdateView<'a>>>,
    /// The octets after the last whole message.
    pub rest: u64,
}

/// Why a stream is not read to its end. Places are counted from 1.
#[derive(Clone, Copy, Debug, PartialEq, Eq)]
pub enum SessionFault {
    /// The header of the message at this place has this subcode.
    Header { sub: u8, place: u64 },
    /// The message at this place is an UPDATE with a fault of this subcode.
    Update { sub: u8, place: u64 },
    /// The message at this place is an OPEN or a NOTIFICATION.
    Unsupported { place: u64 },
    /// Memory could not be had for an item.
    OutOfMemory,
}

/// Reads the stream to its end, or to the first message that cannot be read.
pub fn read_session<'a>(alloc: Global, stream: &'a [u8]) -> Result<Session<'a>, SessionFault>
    ensures read { IfOk result (λ s. Leaves stream.now s.items.items s.rest) }
    ensures header { (sub place : ℕ) → result ≡ Err (SessionFault.Header sub place)
        → IsFaultAt stream.now sub place }
    ensures update { (sub place : ℕ) → result ≡ Err (SessionFault.Update sub place)
        → IsBadUpdateAt stream.now sub place }
    ensures unsupported { (place : ℕ) → result ≡ Err (SessionFault.Unsupported place)
        → IsUnsupportedAt stream.now place }
    // Memory is taken only for a message.
    ensures memory { result ≡ Err SessionFault.OutOfMemory → 0 < length stream.now }
{
    let mut items = Vec::new(alloc);
    let mut framer = Framer::new();
    let mut left = stream;
    loop {
        let count = framer.push(left);
        let (message, after) = left.split_at(count);
        left = after;
        match framer.state() {
            FrameState::Partial(held) => {
                let rest = u64::from(held);
                return Ok(Session { items, rest });
            }
            FrameState::Fault(sub) => {
                let place = items.len() as u64 + 1;
                return Err(SessionFault::Header { sub, place });
            }
            FrameState::Whole(kind) => {
                let place = items.len() as u64 + 1;
                let (_, body) = message.split_at(HEADER_OCTETS);
                let item = match read_item(kind, body, place) {
                    Ok(item) => item,
                    Err(fault) => return Err(fault),
                };
                if items.push(item).is_err() {
                    return Err(SessionFault::OutOfMemory);
                }
            }
        }
        framer.next();
    }
}

/// What the message of this kind and body, the one at this place, says.
fn read_item(kind: MsgKind, body: &[u8], place: u64) -> Result<Option<UpdateView<'_>>, SessionFault>
    requires { kind ≡ MsgKind.Update → 4 ≤ length body.now }
    ensures found { IfOk result (SaysBy kind body.now) }
    ensures header { (sub at : ℕ) → result ≡ Err (SessionFault.Header sub at) → ⊥ }
    ensures update { (sub at : ℕ) → result ≡ Err (SessionFault.Update sub at)
        → (at ≡ place) × FailsBy kind body.now sub }
    ensures unsupported { (at : ℕ) → result ≡ Err (SessionFault.Unsupported at)
        → (at ≡ place) × IsUnsupported kind }
{
    match kind {
        MsgKind::Keepalive => Ok(None),
        MsgKind::Update => match read_update(body, Width::Four, true) {
            Ok(update) => Ok(Some(update)),
            Err(UpdateFault { sub }) => Err(SessionFault::Update { sub, place }),
        },
        MsgKind::Open | MsgKind::Notification => Err(SessionFault::Unsupported { place }),
    }
}

//! What happens to a session, and what each of these does (RFC 4271, section 8.1).
use bgp_update::UpdateView;
use bgp_wire::MsgKind;
use urpf_base::ResetCause;

/// One thing that happens to a session.
#[derive(Clone, Copy)]
pub enum Item<'a> {
    /// The transport came up.
    Up,
    /// A whole message with a good header: its kind, and the octets behind its header.
    Message(MsgKind, &'a [u8]),
    /// A header with a fault, by its subcode (RFC 4271, section 6.1).
    HeaderFault(u8),
    /// The transport went down.
    Down,
    /// So many seconds passed.
    Elapsed(u32),
}

/// What an item does.
#[derive(Drop)]
pub enum Effect<'a> {
    /// Nothing but to let time pass.
    Nothing,
    /// The session came one state further.
    Advanced,
    /// The session ended, for this cause.
    Reset(ResetCause),
    /// Routes are withdrawn and announced.
    Changes(UpdateView<'a>),
}

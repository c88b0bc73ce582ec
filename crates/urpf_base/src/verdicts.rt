//! What becomes of a packet.

/// The verdict on the source of a packet.
#[derive(Clone, Copy, Debug, PartialEq, Eq)]
pub enum Verdict {
    /// The source may arrive on the interface.
    Pass,
    /// It may not.
    Drop,
    /// The packet has no source that can be read.
    BadHead,
    /// The interface is not configured.
    NoIface,
}

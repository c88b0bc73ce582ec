//! How much is taken of one feed, and why a pull stops.
/// The most items of one session.
pub const ITEM_LIMIT: u64 = 1_000_000_000;

/// The most octets that one feed gives.
pub const OCTET_LIMIT: u64 = 4_398_046_511_104;

/// How much is taken of each session's feed.
#[derive(Clone, Copy, Debug, PartialEq, Eq)]
pub struct Limits {
    /// The items, at most 1,000,000,000.
    pub items: u64,
    /// The octets, at most 4,398,046,511,104.
    pub octets: u64,
}

/// Why a pull stopped before it had what it was asked for. A session is named by its number.
#[derive(Clone, Copy, Debug, PartialEq, Eq)]
pub enum RunFault {
    /// The feed of the session failed.
    ReadFault(u32),
    /// The sink failed.
    WriteFault,
    /// The session has as many items as the limit, and another was asked for.
    ItemLimit(u32),
    /// The feed of the session gave as many octets as the limit, no item is left in them, and
    /// another event was asked for.
    OctetLimit(u32),
    /// Memory could not be had.
    OutOfMemory,
}

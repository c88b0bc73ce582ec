//! How a command ended.

use router_config::ConfigKind;
use runbook::BookKind;

/// A text or stream that a status names.
#[derive(Clone, Copy, Debug, PartialEq, Eq)]
pub enum Object {
    /// The configuration.
    Config,
    /// The runbook.
    Book,
    /// The table of pairs.
    Pairs,
    /// The stream of one session.
    Stream,
    /// The feed of the session of this number.
    Session(u32),
}

/// The answer of a command.
#[derive(Clone, Copy, Debug, PartialEq, Eq)]
pub enum Status {
    /// The inputs were read to their ends and the output was taken.
    Done,
    /// The words fit no form of the command.
    Usage,
    /// The configuration breaks the rule of this kind first, at the interface or session of this
    /// place, counted from 0, or at 0 where the rule is on the whole.
    BadConfig { kind: ConfigKind, index: u32 },
    /// The line of this number, counted from 1, is the first of the runbook that is refused.
    BadBook { line: u32, kind: BookKind },
    /// There are so many session words, and another number of sessions is configured. A number given
    /// that is above 4,294,967,295 is told as 4,294,967,295.
    SessionCount { given: u32, wanted: u32 },
    /// The table of pairs has more than 4,000,000.
    TooManyPairs,
    /// The text has more octets than its limit.
    TooLong(Object),
    /// A read of the object failed.
    ReadFault(Object),
    /// A write failed.
    WriteFault,
    /// The session of this number has as many items as the limit, and another was asked for.
    ItemLimit { session: u32 },
    /// The feed of the session of this number gave as many octets as the limit, and another event
    /// was asked for.
    OctetLimit { session: u32 },
    /// The message at this place, counted from 1, has this error code and subcode
    /// (RFC 4271, section 6).
    BadSession { code: u8, sub: u8, place: u64 },
    /// The message at this place, counted from 1, is of a kind that the command does not read.
    Unsupported { place: u64 },
    /// Memory could not be had.
    OutOfMemory,
}

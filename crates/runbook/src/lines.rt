//! A line of a runbook, and why one is refused.

use router_config::Edit;
use urpf_base::{Addr, IfaceId};

/// What a line of a runbook asks for.
#[derive(Clone, Copy, Debug, PartialEq, Eq)]
pub enum BookLine {
    /// Takes the next `count` items of a session, or all of them where no count is given. Where no
    /// session is given, it does so for each session from 0 on.
    Pull {
        session: Option<u32>,
        count: Option<u64>,
    },
    /// Publishes what was pulled.
    Publish,
    /// Ends a round.
    Round,
    /// Checks an address on an interface at the last publication.
    Check {
        iface: IfaceId,
        addr: Addr,
    },
    /// Changes the role or the mode of an interface, or adds or removes a pair.
    Change(Edit),
    /// Prints the summary of what is there.
    Summary,
}

/// Why a line is refused.
#[derive(Clone, Copy, Debug, PartialEq, Eq)]
pub enum BookKind {
    /// The words are those of no line.
    Syntax,
    /// No session of this number is configured.
    Session,
    /// No interface of this number is configured.
    Iface,
    /// There are 65,535 rounds before.
    Rounds,
}

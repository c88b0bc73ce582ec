//! Why no run begins, and the status that tells it.
ghost use Rattle.std.specs.Prelude.{◌≡◌};
ghost use Rattle.urpf_cli.specs.Statuses.{status_of_book, status_of_config, status_of_pairs, status_of_refusal};

use crate::status::{Object, Status};
use router_config::ConfigFault;
use runbook::BookFault;

/// Why a text gives nothing to a run.
#[derive(Clone, Copy)]
pub enum TextRefusal<F> {
    /// A read of the text failed.
    ReadFault,
    /// The text has more octets than its limit.
    TooLong,
    /// The text has this fault first.
    Bad(F),
    /// Memory could not be had.
    OutOfMemory,
}

/// The table of pairs has more than 4,000,000.
#[derive(Clone, Copy)]
pub struct TooManyPairs;

/// Why no run begins.
#[derive(Clone, Copy)]
pub enum Refusal {
    /// The words fit no form of the command.
    Misused,
    /// The configuration is refused.
    Config(TextRefusal<ConfigFault>),
    /// The runbook is refused.
    Book(TextRefusal<BookFault>),
    /// The table of pairs is refused.
    Pairs(TextRefusal<TooManyPairs>),
    /// So many sessions are given, and another number is configured, at most 128. A number given
    /// that is above 4,294,967,295 is told as 4,294,967,295.
    SessionCount { given: u32, wanted: u32 },
}

/// The status of a run that does not begin.
pub fn status_of_refusal(refusal: Refusal) -> Status
    ensures { result ≡ status_of_refusal refusal }
{
    match refusal {
        Refusal::Misused => Status::Usage,
        Refusal::Config(refusal) => status_of_config(refusal),
        Refusal::Book(refusal) => status_of_book(refusal),
        Refusal::Pairs(refusal) => status_of_pairs(refusal),
        Refusal::SessionCount { given, wanted } => Status::SessionCount { given, wanted },
    }
}

/// The status of a configuration that is refused.
fn status_of_config(refusal: TextRefusal<ConfigFault>) -> Status
    ensures { result ≡ status_of_config refusal }
{
    match refusal {
        TextRefusal::ReadFault => Status::ReadFault(Object::Config),
        TextRefusal::TooLong => Status::TooLong(Object::Config),
        TextRefusal::Bad(fault) => Status::BadConfig {
            kind: fault.kind,
            index: fault.index,
        },
        TextRefusal::OutOfMemory => Status::OutOfMemory,
    }
}

/// The status of a runbook that is refused.
fn status_of_book(refusal: TextRefusal<BookFault>) -> Status
    ensures { result ≡ status_of_book refusal }
{
    match refusal {
        TextRefusal::ReadFault => Status::ReadFault(Object::Book),
        TextRefusal::TooLong => Status::TooLong(Object::Book),
        TextRefusal::Bad(fault) => Status::BadBook {
            line: fault.line,
            kind: fault.kind,
        },
        TextRefusal::OutOfMemory => Status::OutOfMemory,
    }
}

/// The status of a table of pairs that is refused.
fn status_of_pairs(refusal: TextRefusal<TooManyPairs>) -> Status
    ensures { result ≡ status_of_pairs refusal }
{
    match refusal {
        TextRefusal::ReadFault => Status::ReadFault(Object::Pairs),
        TextRefusal::TooLong => Status::TooLong(Object::Pairs),
        TextRefusal::Bad(TooManyPairs) => Status::TooManyPairs,
        TextRefusal::OutOfMemory => Status::OutOfMemory,
    }
}

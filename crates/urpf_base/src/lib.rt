//! What every crate of the router stands on: addresses, prefixes and cover, a line of output, and
//! the traits through which octets come in and go out.
#![tactic(auto)]

mod address;
mod cells;
mod counting;
mod interfaces;
mod kinds;
mod laws;
mod line_buffer;
mod masks;
mod origins;
mod outside;
mod prefixes;
mod reading;
mod sessions;
mod verdicts;
mod writing;

pub use address::Addr;
pub use cells::{Cell, CellChange, Changes};
pub use counting::Steps;
pub use interfaces::{IFACE_LIMIT, IfaceId};
pub use kinds::{Kind, Mode, Role};
pub use laws::{assigned_limits, members_of_masks, order_of_prefixes};
pub use line_buffer::{LINE_OCTETS, Line};
pub use masks::Mask;
pub use origins::Origin;
pub use outside::{Failed, OutOfMemory, Sink, Source};
pub use prefixes::Prefix;
pub use reading::{TextFault, read_text};
pub use sessions::{ResetCause, SessionConfig};
pub use verdicts::Verdict;
pub use writing::write_all;

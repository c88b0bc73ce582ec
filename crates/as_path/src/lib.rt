//! AS paths (RFC 4271, section 4.3; RFC 6793): the value of an AS_PATH or an AS4_PATH comes in, and
//! its hops, the path that both make together and the origin of that path go out.
//!
//! ```text
//! path    = segment ..
//! segment = type (1 octet: 1 AS_SET, 2 AS_SEQUENCE), count (1), AS numbers (2 or 4 each)
//! ```
#![tactic(auto)]

mod merge;
mod paths;
mod segments;
mod widths;

pub use merge::{Aggregators, origin_of};
pub use paths::PathView;
pub use widths::Width;

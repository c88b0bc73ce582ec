//! The routes that one session has announced (RFC 4271, section 3.2: Adj-RIB-In): from each prefix
//! to its origin.
#![tactic(auto)]

mod laws;
mod rib;

pub use laws::{map_laws, order_laws};
pub use rib::AdjRib;

//! The texts of addresses and numbers: octets come in and an address or a number goes out, or an
//! address or a number comes in and is appended to a line.
#![tactic(auto)]

mod cutting;
mod groups;
mod numbers;
mod prefixes;
mod printing;
mod reading;

pub use cutting::cut;
pub use numbers::read_number;
pub use prefixes::{read_asn, read_prefix};
pub use printing::{put_addr, put_number};
pub use reading::read_addr;

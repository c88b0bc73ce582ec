//! Tables of pairs of a prefix and an AS number: the octets of a text come in, and its pairs go
//! out, in their order and with repeats, with how many of its records or objects gave none.
//!
//! - A VRP table is CSV (RFC 4180) as validators write it of the authorizations of origins (RFC
//!   6482). A record is a row, the first like any other and each of any number of fields. It gives
//!   a pair where its first field is an AS number and its second a prefix; further fields, as the
//!   maximum length, are not looked at. Each other record is skipped and counted, and so a header
//!   is.
//! - An IRR text is routing policy objects as registries publish them (RFC 2622, section 2). An
//!   object is the lines between two empty ones. A `route` (RFC 2622, section 4) or `route6` (RFC
//!   4012, section 3) object gives the pair of its prefix and its first origin; where it has none,
//!   it is skipped and counted. Objects of other classes are ignored, and not counted.
//!
//! An AS number is digits with or without `AS` before them, and a prefix an address, a slash and a
//! length, as `ip_text` reads them. A pair with AS number 0 is a pair like any other here.
#![tactic(auto)]

mod irr;
mod laws;
mod lines;
mod objects;
mod pairs;
mod values;
mod vrps;

pub use irr::read_irr;
pub use laws::{one_irr_table, one_vrp_table};
pub use pairs::{Pairs, PairsFault};
pub use vrps::read_vrps;

#[cfg(test)]
mod tests;

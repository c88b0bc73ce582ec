//! Runbooks: the octets of a text and a configuration come in, and the list of its lines goes out, or
//! the first line that is refused.
//!
//! A line is one of these, where S is a session or `*` for each, N at most 1,000,000,000 or `all`, and
//! I an interface:
//!
//! ```text
//! pull S N         publish          check I ADDR     role I customer, peer or provider
//! round            summary          mode I off, feasible, loose, loose-nodefault, efp-a or efp-b
//! pair add PREFIX ASN               pair del PREFIX ASN
//! ```
//!
//! Lines end with LF; the last may lack it, and a CR before LF is dropped. `#` and what follows on
//! its line is dropped. Words are parted by spaces and tabs, and a line without words is passed over.
#![tactic(auto)]

mod book;
mod cutting;
mod judging;
mod laws;
mod lines;
mod reading;
mod saying;
mod words;

pub use book::{Book, BookFault, ReadBook, read_book};
pub use laws::{configured_lines, one_book};
pub use lines::{BookKind, BookLine};

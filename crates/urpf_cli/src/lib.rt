//! The commands of the router, each as one call that is lent its words, sources, feeds and sink.
#![tactic(auto)]

mod check;
mod laws;
mod offline_command;
mod opening;
mod pair_table;
mod refusals;
mod session;
mod status;
mod status_text;
mod words;

pub use check::{STREAM_OCTETS, check_one};
pub use laws::{one_opening, one_output, one_refusal_status, one_run_text, text_limits};
pub use offline_command::offline;
pub use opening::{BOOK_OCTETS, CONFIG_OCTETS};
pub use pair_table::PAIRS_OCTETS;
pub use status::{Object, Status};
pub use status_text::{exit_code, put_status};
pub use words::{Command, Names, PairsWord, TableForm, feed_names, read_command};

//! The lines of output: numbers and addresses come in, and a line goes out in a buffer that was
//! empty. Nothing here takes memory or can fail.
#![tactic(auto)]

mod checks;
mod fields;
mod packets;
mod runs;

pub use checks::{put_check, put_one};
pub use packets::put_packet;
pub use runs::{put_done, put_end, put_mark, put_reset, put_round, put_run, put_summary};

//! What the lines of a runbook do to a run, which lines of output they give, and which batches they
//! hand on.
#![tactic(auto)]

mod outlet;
mod run;
mod run_line;

pub use outlet::Outlet;
pub use run::{Totals, open_control, open_run, run_book, take_lines};
pub use run_line::take_line;

//! A live run round by round: the control runs the lines of a runbook in one thread while workers
//! judge packets in others, and at the end of each round the rows of the workers are written.
//!
//! What the lines do is left to the control, which is any `Part`; what it says of each line is a
//! relation of its own, and the contract of a run joins these.
#![tactic(auto)]

mod fault;
mod part;
mod place;
mod rounds;
mod rows;
mod settle;
mod work;
mod worker;

pub use fault::LiveFault;
pub use part::Part;
pub use place::Seat;
pub use rounds::run_rounds;
pub use worker::{RECORD_LIMIT, Worker};

//! The work of one thread: packet records come in from a source, and a row goes out for each packet,
//! with the verdict of a checker and the number of the publication that it is by.
//!
//! The thread that joins the workers, what is published meanwhile, and the lines of output are left
//! to others.
#![tactic(auto)]

mod desk;
mod octet_front;
mod octet_reader;
mod record_reader;
mod rows;
mod work;

pub use desk::{Desk, Stop, WorkerEnd, WorkerRound};
pub use octet_front::FRONT_OCTETS;
pub use rows::{CheckRow, CheckRows};
pub use work::work_round;

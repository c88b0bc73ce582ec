//! What the router publishes, batch by batch, and who checks packets by it: one publisher, and
//! passes, each of which is the reader of a worker.
//!
//! Two copies of a snapshot are published by turns. A pass takes the one that is shown, waits for
//! nobody and takes no memory; the publisher waits for passes that still read the other one.
#![tactic(auto)]

mod checker;
mod history;
mod laws;
mod note;
mod pass;
mod passes;
mod published;
mod publisher;

pub use checker::{Checker, NoPass, SurePass};
pub use history::{Book, Front, Naming, Opened};
pub use laws::{numbered_folds, numbered_lists};
pub use note::Note;
pub use pass::Pass;
pub use passes::Passes;
pub use published::{Event, Published};
pub use publisher::Publisher;

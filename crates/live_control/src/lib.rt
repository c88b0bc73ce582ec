//! The control of a live run: it runs lines of a runbook while workers judge packets, publishes each
//! batch to the passes of its history, and judges by all that it published.
#![tactic(auto)]

mod control;
mod publications;

pub use control::LiveControl;
pub use publications::{Aid, Publications};

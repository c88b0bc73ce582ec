//! A live run as a whole: a configuration, a table of pairs, a runbook, the feeds of the sessions and
//! the packets of the workers come in, and the text of the run goes to a sink.
#![tactic(auto)]

mod hiring;
mod run;

pub use run::run_live;

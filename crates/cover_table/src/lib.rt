//! What the router publishes: batches of cells that changed, tables of cells, and snapshots, which
//! take batches over and judge the sources of packets.
//!
//! A cell says of a prefix in which source sets it is (RFC 8704, section 3; RFC 3704, section 2).
//! How the sets are made is left to others, and so is how a snapshot comes to another thread.
#![tactic(auto)]

mod batch;
mod forks;
mod grow;
mod judging;
mod laws;
mod look;
mod node_list;
mod nodes;
mod slots;
mod snapshot;
mod table;
mod tree;

pub use batch::Batch;
pub use laws::{fold_laws, fold_steps, judge_laws, written_laws};
pub use snapshot::Snapshot;
pub use table::CoverTable;

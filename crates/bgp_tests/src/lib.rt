//! Tests of the crates that read messages and run sessions, through their public calls: bgp_wire,
//! bgp_open, bgp_nlri, as_path, bgp_attr, bgp_update and session_fsm.
//!
//! Nothing but tests is here. A crate that has tests of its own is proved twice, with them and
//! without, so those of all seven stand in this one.
#![tactic(auto)]

#[cfg(test)]
mod tests;

//! Tests of router_config through its public calls.
//!
//! Nothing but tests is here. A crate that has tests of its own is proved twice, with them and
//! without, so those of router_config stand in this one.
#![tactic(auto)]

#[cfg(test)]
mod tests;

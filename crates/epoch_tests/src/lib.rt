//! Tests of epoch_publish through its public calls: passes that are handed out, publications that
//! are seen, told and refused, and a thread that follows another one's publications.
//!
//! Nothing but tests is here. A crate that has tests of its own is proved twice, with them and
//! without.
#![tactic(auto)]

#[cfg(test)]
mod tests;

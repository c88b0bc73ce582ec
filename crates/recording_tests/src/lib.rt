//! Tests of mrt_feed through its public calls: words, and feeds over recordings in memory and over
//! files that real speakers wrote.
//!
//! Nothing but tests is here. A crate that has tests of its own is proved twice, with them and
//! without.
#![tactic(auto)]

#[cfg(test)]
mod tests;

//! Tests of feed_io through its public calls: feeds, sources and sinks over memory and files, and
//! traces, and the generator.
//!
//! Nothing but tests is here. A crate that has tests of its own is proved twice, with them and
//! without.
#![tactic(auto)]

#[cfg(test)]
mod tests;

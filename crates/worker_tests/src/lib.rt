//! Tests of forward_worker through its public calls: rounds of work over a pass and over its
//! stand-ins, how they end, what the gate is told, and what is left where memory is refused, also by
//! a publisher.
//!
//! Nothing but tests is here. A crate that has tests of its own is proved twice, with them and
//! without.
#![tactic(auto)]

#[cfg(test)]
mod tests;

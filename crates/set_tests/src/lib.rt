//! Tests of rpf_plain through its public calls: worked rows and pairs with their cells, drawn
//! ones beside a slow program, and that calls succeed where memory is ample.
//!
//! Nothing but tests is here. A crate that has tests of its own is proved twice, with them and
//! without.
#![tactic(auto)]

#[cfg(test)]
mod tests;

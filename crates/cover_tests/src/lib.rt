//! Tests of cover_table through its public calls: worked publications with their verdicts, drawn
//! tables beside a slow program, and calls whose memory is refused.
//!
//! Nothing but tests is here. A crate that has tests of its own is proved twice, with them and
//! without.
#![tactic(auto)]

#[cfg(test)]
mod tests;

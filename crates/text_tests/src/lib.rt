//! Tests of the crates that read and write texts, through their public calls: ip_text, ip_head,
//! runbook and report_text.
//!
//! Nothing but tests is here. A crate that has tests of its own is proved twice, with them and
//! without, so those of all four stand in this one.
#![tactic(auto)]

#[cfg(test)]
mod tests;

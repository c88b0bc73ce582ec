//! Tests of control_core, run_lines and urpf_cli through their public calls: pulls and publications, `check`
//! and `offline` with their whole output, how often the outside is called, and what statuses say.
//!
//! Nothing but tests is here. A crate that has tests of its own is proved twice, with them and
//! without.
#![tactic(auto)]

#[cfg(test)]
mod tests;

//! Messages that are changed at every octet: in come good messages and a number to start from, and
//! for each changed one the answers of `read_update` and `read_open` are held against those of
//! plain readings of the formats.
//!
//! Nothing but tests is here. They share one generator, and the readers below are checked without
//! them.
#![tactic(auto)]

#[cfg(test)]
mod tests;

//! Tests of the lowest crates through their public calls: urpf_base, prefix_map, origin_pairs and
//! adj_rib.
//!
//! Nothing but tests is here. A crate that has tests of its own is proved twice, with them and
//! without, so those of all four stand in this one.
#![tactic(auto)]

#[cfg(test)]
mod tests;

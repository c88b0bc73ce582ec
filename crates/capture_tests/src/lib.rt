//! Tests of pcap_packets through its public calls: captures in memory and in files, the packet
//! records that they give, rounds of work over them, and the words that name them.
//!
//! Nothing but tests is here. A crate that has tests of its own is proved twice, with them and
//! without.
#![tactic(auto)]

#[cfg(test)]
mod tests;

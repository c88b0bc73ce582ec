//! Pairs of a prefix and an AS number, in few octets, and sets of them.
#![tactic(auto)]

mod laws;
mod packed_pair;
mod packing;
mod pair_set;

pub use laws::pair_laws;
pub use packed_pair::{LongPair, PackedPair, ShortPair};
pub use packing::packed;
pub use pair_set::{PairSet, PairsIn};

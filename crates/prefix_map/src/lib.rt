//! An ordered map from prefixes to values, the walk over its pairs, and the walk over two such maps
//! side by side.
//!
//! It is seen as a finite map in the order of prefixes (IPv4 first, then by address, then by
//! length). It is kept as two maps, one a family, under keys of 8 and 24 octets.
#![tactic(auto)]

mod beside;
mod builder;
mod families;
mod keys;
mod laws;
mod map;
mod pairs;

pub use beside::Beside;
pub use builder::PrefixMapBuilder;
pub use laws::{beside_laws, map_laws, order_laws};
pub use map::PrefixMap;
pub use pairs::Pairs;

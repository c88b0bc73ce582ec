//! The source sets of a router, computed from the routes of all its sessions: feasible paths and
//! loose mode (RFC 3704, section 2), and enhanced feasible paths by Algorithms A and B (RFC 8704,
//! section 3), with pairs of a prefix and an AS.
//!
//! Rows and pairs go in and out, roles change, and a drain answers for which prefixes the sets changed.
#![tactic(auto)]

mod ahead;
mod by_pairs;
mod cells;
mod customers;
mod differences;
mod engine;
mod laws;
mod near;
mod one_cell;
mod origins;
mod plain;
mod row_keys;
mod row_map;
mod row_packing;
mod rows;
mod table;
mod writer;

pub use engine::SetEngine;
pub use laws::{
    cell_laws, difference_laws, more_routes, role_laws, row_laws, table_laws, unheard_pair,
    verdict_laws, widening, widening_is_strict, widening_needs, widening_with_pairs, wider_modes,
};
pub use plain::PlainEngine;
pub use rows::Row;

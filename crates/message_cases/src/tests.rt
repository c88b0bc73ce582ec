//! The changes, the plain readings, and the comparisons.
mod attributes;
mod chance;
mod changes;
mod octets;
mod open_cases;
mod opens;
mod outcomes;
mod paths;
mod prefixes;
mod update_cases;
mod updates;

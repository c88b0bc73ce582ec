//! What no clause says: worked texts, events and traces, each call once where memory is ample, and
//! the adapters over real files.
mod events;
mod generators;
mod octets;
mod traces;

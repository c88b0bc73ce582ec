//! What no clause says: that calls succeed where memory is ample, that the gate is told of each check
//! and of no other, worked rounds, and what is left after a refusal.
mod ends;
mod made;
mod publishers;
mod refused;
mod rows;

//! What no clause says: that checks and publications run beside each other, and worked runs with their
//! whole output.
mod meeting;
mod runs;
mod worked;

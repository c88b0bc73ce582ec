//! What no clause says: that configurations are read where memory is ample, and a text for each rule
//! that keeps the rules before it and breaks those behind it.
mod readings;
mod refusals;

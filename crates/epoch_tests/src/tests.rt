//! What no clause says: that calls succeed where memory is ample, that none of them is refused a
//! place or an entry then, what is left after a refusal, and that threads follow one another.
mod made;
mod stories;
mod threads;

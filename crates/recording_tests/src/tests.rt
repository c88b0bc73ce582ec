//! What no clause says: worked words and recordings, each call once, a source that fails, and the
//! recordings of real speakers.
mod broken;
mod files;
mod recorded;
mod recordings;
mod words;

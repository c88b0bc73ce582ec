//! What no clause says: worked captures and files of other tools with the packets that are in them,
//! and that a round of work names the sources of these.
mod broken;
mod files;
mod made;
mod recorded;
mod rounds;
mod words;
mod worked;

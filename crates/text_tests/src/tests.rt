//! What no clause says: texts made by hand, and what is read of them, or written.
mod addresses;
mod books;
mod heads;
mod lines;
mod prefixes;

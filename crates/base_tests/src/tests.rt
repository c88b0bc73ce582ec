//! What no clause says: values that were worked by hand, and each call once where memory is ample.
mod maps;
mod pairs;
mod ribs;
mod values;

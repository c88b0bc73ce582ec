//! What no clause says: the cells of worked rows and pairs, and of drawn ones beside a slow program, and that
//! calls succeed where memory is ample.
mod drawn;
mod fed;
mod refused;
mod slow;
mod worked;
mod worked_figures;
mod worked_pairs;

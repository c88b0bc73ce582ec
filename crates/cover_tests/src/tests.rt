//! What no clause says: the verdicts of worked publications, of nested prefixes, and of drawn tables
//! beside a plain list and a slow program, that calls succeed where memory is ample, and that a
//! snapshot may cross threads.
mod asked;
mod drawn;
mod listed;
mod made;
mod nested;
mod refused;
mod worked;

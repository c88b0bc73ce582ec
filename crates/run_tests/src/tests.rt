//! What no clause says: worked calls with their lines, how a sink and a feed are asked, and that calls
//! succeed where memory is ample. Whole runs stand as pages in cases/.
mod calling;
mod checking;
mod control;
mod generated;
mod inputs;
mod long_tables;
mod offering;
mod offline;
mod rows;
mod telling;
mod traces;
mod watched;

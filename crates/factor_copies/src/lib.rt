// Rows of U that are long and nearly full, kept once more cell by cell, so that a multiple of such a row is taken away in one run.
// All copies stand in one list. Its place k says where the copy of row k begins, 0 where the row has none, and place 2048 + k
// with which column; the cells of the copies stand after these 4096 places.
#![tactic(auto)]

pub mod holding;
pub mod taking;

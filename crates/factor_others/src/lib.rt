// The rows that have no structural pivot, one by one, by way of the blocks that they touch.
#![tactic(auto)]

pub mod rows;

// Fields of a text: the pieces between separator bytes, and the numbers that they say in decimal.
#![tactic(auto)]

pub mod numbers;
pub mod pieces;
pub mod runs;

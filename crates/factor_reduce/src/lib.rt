// A vector reduced in the working row by the rows of U, which stand in stored lists.
#![tactic(auto)]

pub mod gather;

// The blocks of the working row that a row touched, and what is done to these alone.
#![tactic(auto)]

pub mod marks;
pub mod searching;
pub mod settling;

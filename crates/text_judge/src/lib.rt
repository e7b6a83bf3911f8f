// One line of a plan text (document 01, "Plan text"): the numbers that it states, and what they are judged to be.
#![tactic(auto)]

pub mod header;
pub mod judge;
pub mod line;
pub mod sight;

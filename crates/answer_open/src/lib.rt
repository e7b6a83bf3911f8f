// The open columns of a set that passed: the verdicts of all unit questions (document 01's open words).
#![tactic(auto)]

pub mod choose;
pub mod count;
pub mod pivots;
pub mod unit;
pub mod witness;

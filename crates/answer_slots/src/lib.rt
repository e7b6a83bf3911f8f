// Slot values answered from a set that passed (document 02, slip 6).
#![tactic(auto)]

pub mod contradiction;
mod forward;
mod gaps;
mod lacking;
mod settle;
pub mod solve;

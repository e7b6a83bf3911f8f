// One turn of the factoring, and the rows of L of dependent rows, which each turn keeps.
#![tactic(auto)]

pub mod keeping;
pub mod turn;

// Orders of rows and columns: the structural pivots, and the completion of an order by the numbers that it lacks.
#![tactic(auto)]

pub mod complete;
pub mod pairs;

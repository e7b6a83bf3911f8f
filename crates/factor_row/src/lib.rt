// A row of a stored matrix becomes a pivot row as it stands, or is reduced by the rows of U.
#![tactic(auto)]

pub mod gathering;
pub mod loading;
pub mod pivot_copy;
pub mod pivot_row;
pub mod taking;

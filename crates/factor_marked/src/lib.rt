// A row of the matrix is reduced and taken where the blocks of sixteen that it touches are marked: of the cells and of the
// pivots, the blocks without a mark are passed over.
#![tactic(auto)]

pub mod gather;
pub mod gathering;
pub mod next_pivot;
pub mod noting;
pub mod settled_pivot;
pub mod taking;

// The first pass of the factoring: the structural pivots, then the other rows, one by one or in the block.
#![tactic(auto)]

pub mod dense;
pub mod pass;

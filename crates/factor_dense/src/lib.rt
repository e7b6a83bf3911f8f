// The rows left at the end of factoring, reduced in a block of 32 by 32 residues.
#![tactic(auto)]

pub mod block;
pub mod storing;
pub mod taking;

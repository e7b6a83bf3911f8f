// The pass of the factoring over everything that is lent to it, and what completes the factors after it.
#![tactic(auto)]

pub mod passes;

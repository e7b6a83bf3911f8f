// Factoring: the pivot rules of document 01 in one pass over lent lists, after which the factors are completed.
#![tactic(auto)]

pub mod clearing;
pub mod factor;

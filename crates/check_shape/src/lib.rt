// The tests of a set's orders and of the shape of its factors (refusals 11 and 13), in linear time.
#![tactic(auto)]

pub mod lower;
pub mod order;
pub mod upper;

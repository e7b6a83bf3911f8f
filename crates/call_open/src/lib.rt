// The calls that list the open columns (document 01's open words), without owners: all unit questions of a set after one check; `call_owned` has the
// public ones.
#![tactic(auto)]

pub mod from_certificate;
pub mod from_factors;

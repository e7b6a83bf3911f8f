// The calls that answer slot values from a set of factors, which is checked first (document 02, slip 6).
#![tactic(auto)]

pub mod from_certificate;
pub mod from_factors;
pub mod slots;

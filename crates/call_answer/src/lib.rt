// The calls that answer a question from a set of factors, which is checked first, without owners; `call_owned` has the public ones.
#![tactic(auto)]

pub mod from_certificate;
pub mod from_factors;
pub mod question;

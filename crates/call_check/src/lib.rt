// The calls that check a set of factors against a stored plan, without owners; `call_owned` has the public ones.
#![tactic(auto)]

pub use from_certificate::check_certificate;
pub use from_factors::check_factors;

pub mod from_certificate;
pub mod from_factors;

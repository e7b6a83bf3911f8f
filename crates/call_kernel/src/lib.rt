// The call that gives the settings of the free columns (document 02, slip 7): every setting that fits, from a certificate that is checked first.
#![tactic(auto)]

pub mod from_certificate;

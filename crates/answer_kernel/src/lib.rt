// The kernel of a plan by its free columns, from a set that passed (document 02, slip 7): every setting that fits.
#![tactic(auto)]

pub mod basis;
pub mod marks;
pub mod settings;

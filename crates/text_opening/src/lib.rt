// The first two lines of a plan's text (document 01, "Plan text"), and the definition of reading a text, which begins with them.
#![tactic(auto)]

pub mod opening;

// Runs the cases of factoring: a plan's text is read, one thing may be changed, the plan is factored, and what comes of it is printed.
#![tactic(auto)]

pub mod change;
mod handed;
mod print;
pub mod run;

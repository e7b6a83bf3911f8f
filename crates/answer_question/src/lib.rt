// Questions answered from a set that passed: the test of a question, its reduction by U, and the answer.
#![tactic(auto)]

pub mod answer;
pub mod question;
pub mod reduce;

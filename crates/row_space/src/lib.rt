// Questions answered from a set of factors that passed: the definitions of the answer, and the two substitutions.
#![tactic(auto)]

pub mod lower;
pub mod upper;

// The answer to a question: open where the listener can compute it, closed where it stays hidden.
#[derive(Clone, Copy, Debug, PartialEq, Eq)]
pub enum Verdict {
    Open,
    Closed,
}

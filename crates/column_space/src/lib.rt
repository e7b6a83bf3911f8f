// Slot values answered from a set of factors that passed (document 02, slip 6): the definitions of the answer and what they mean.
#![tactic(auto)]

// The answer to slot values: a setting of the words gives them, or they contradict each other.
#[derive(Clone, Copy, Debug, PartialEq, Eq)]
pub enum SlotVerdict {
    Solved,
    Contradiction,
}

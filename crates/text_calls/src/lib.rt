// What the calls for C do with a text once their storage is there: make, check, deliver a report, and hand on an answer. `plq` lends the storage and exports them.
#![tactic(auto)]

ghost use Rattle.std.specs.Prelude.{◌≡◌};
ghost use Rattle.refusals.specs.Outcome.{outcome_of};
ghost use Rattle.text_calls.specs.Calls.{packed};

use refusals::Refusal;

pub mod answer;
pub mod check;
pub mod make;
pub mod report;

// An outcome as one number: the table's number plus 256 times its detail.
pub fn pack(outcome: Result<(), Refusal>) -> u64
    ensures { result ≡ packed (outcome_of outcome) }
{
    match outcome {
        Ok(()) => 0,
        Err(refusal) => u32::from(refusal.fault) as u64 + 256 * refusal.detail as u64,
    }
}

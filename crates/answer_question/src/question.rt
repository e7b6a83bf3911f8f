// The test of a question.
ghost use Rattle.std.specs.Prelude.{◌≡◌, ◌^◌, ◌<◌, length};
ghost use Rattle.refusals.specs.Outcome.{outcome_of};
ghost use Rattle.row_space.specs.Question.{question_outcome};

use refusals::{Fault, Refusal};

// Refuses a question with a value that is p or more: 15, at the first such index.
pub fn question_ok(y: &[u32], p: u32) -> Result<(), Refusal>
    requires { length y.now < 2 ^ 32 }
    ensures { outcome_of result ≡ question_outcome p y.now }
{
    for (j, v) in y.iter().enumerate() {
        if p <= *v {
            return Err(Refusal {
                fault: Fault::QuestionTooLarge,
                detail: j as u32,
            });
        }
    }
    Ok(())
}

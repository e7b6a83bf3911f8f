// The answer to a question about a plan's text, from a certificate, or from the engine's own factors where the certificate has no bytes.
#![tactic(auto)]

ghost use Rattle.std.specs.Prelude.{ℕ, ◌≡◌, length};
ghost use Rattle.limits.specs.Limits.{work_length};
ghost use Rattle.call_answer.specs.Calls.{AnswersIn, given_answer};
ghost use Rattle.answer_lib.specs.Answering.{answer_text_of};

use refusals::Refusal;
use row_space::Verdict;

pub mod certified;
pub mod own;

// Reads a plan's text and answers a question about the plan.
//   takes    a text, the bytes of a certificate or none, a question y of m values, n cells for x, m cells for z and a working row
//   gives    open, with x such that x A = y; or closed, with z such that A z = 0 and y z is not 0; or the number and detail of the first fault
//   refuses  reading: 2, then the first line at fault; then, without a certificate, factoring: 7; then the question as the calls on a stored plan do
//   leaves   the one of x and z that is not the answer all zero, after a refusal both; the working row all zero
pub fn answer_text(
    text: &[u8],
    certificate: &[u8],
    y: &[u32],
    x: &mut [u32],
    z: &mut [u32],
    work: &mut [u64],
) -> Result<Verdict, Refusal>
    requires { length work.old ≡ work_length }
    ensures { AnswersIn (λ (a b w : ℕ). answer_text_of text.now certificate.now y.now a b) (given_answer result) x z work }
{
    if certificate.is_empty() {
        own::answer_own(text, y, x, z, work)
    } else {
        certified::answer_certified(text, certificate, y, x, z, work)
    }
}

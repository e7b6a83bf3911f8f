// The call that answers a question from a certificate. Any content of x, z and the working row is accepted.
ghost use Rattle.std.specs.Prelude.{length};
ghost use Rattle.algebra.specs.Matrix.{vector};
ghost use Rattle.row_space.specs.Solve.{solve};
ghost use Rattle.answer_question.specs.Answering.{Answered};
ghost use Rattle.certificate.specs.Reading.{set_of_certificate};
ghost use Rattle.call_check.specs.Calls.{check_certificate_of, Checks};
ghost use Rattle.refusals.specs.Outcome.{outcome_of};
ghost use Rattle.call_answer.specs.Calls.{given_answer, question_after, answer_certificate_of, AnswersIn};
ghost use Rattle.call_answer.specs.Needs.{AnswerPartsReady};
ghost use Rattle.sparse.specs.Views.{stored_before};

use crate::question::question_lengths;
use answer_question::answer::answer;
use answer_question::question::question_ok;
use call_check::from_certificate::check_bytes;
use certificate::parts::set_of_certificate;
use lists::{clear, clear_row};
use refusals::{Fault, Refusal};
use residue::Modulus;
use row_space::Verdict;

// The tests of a call with a certificate: 9, 1, 2, 8, 10, 11 to 14, 15. The working row is left all zero.
fn asked_of_certificate(
    q: Modulus,
    n: u32,
    m: u32,
    starts: &[u32],
    cols: &[u32],
    vals: &[u32],
    cert: &[u8],
    y: &[u32],
    xlen: usize,
    zlen: usize,
    work: &mut [u64],
) -> Result<(), Refusal>
    ensures { Checks (question_after (check_certificate_of q.p n m (stored_before starts.now cols.now vals.now) cert.now (length work.old)) q.p n m y.now xlen zlen) (outcome_of result) work.old work.new }
{
    if !question_lengths(n, m, y, xlen, zlen) {
        clear_row(work);
        return Err(Fault::WrongLength.into());
    }
    check_bytes(q, n, m, starts, cols, vals, cert, work)?;
    question_ok(y, q.p)
}

// The answer from a certificate that passed: its parts are read where they stand.
fn answer_parts(
    q: Modulus,
    n: u32,
    m: u32,
    cert: &[u8],
    y: &[u32],
    x: &mut [u32],
    z: &mut [u32],
    work: &mut [u64],
) -> Verdict
    requires { AnswerPartsReady q.p n m cert.now y.now x.old z.old work.old }
    ensures { Answered (solve q.p (length x.old) (length z.old) (set_of_certificate n m cert.now) (vector y.now)) result x.new z.new work.new }
{
    let set = set_of_certificate(cert, n, m);
    answer(q, &set, y, x, z, work)
}

// Answers a question from a certificate, which is read from its own bytes.
//   takes    a stored plan, the bytes of a certificate, a question y of m values, n cells for x, m cells for z and a working row
//   gives    open, with x such that x A = y; or closed, with z such that A z = 0 and y z is not 0; or the number and detail of the first fault
//   refuses  9, 1, 2, 8, 10, 11, 12, 13, 14 at the first position, 15 at the first index
//   leaves   the one of x and z that is not the answer all zero, after a refusal both; the working row all zero
pub fn answer_from_certificate(
    p: u32,
    n: u32,
    m: u32,
    starts: &[u32],
    cols: &[u32],
    vals: &[u32],
    cert: &[u8],
    y: &[u32],
    x: &mut [u32],
    z: &mut [u32],
    work: &mut [u64],
) -> Result<Verdict, Refusal>
    ensures { AnswersIn (answer_certificate_of p n m (stored_before starts.now cols.now vals.now) cert.now y.now) (given_answer result) x z work }
{
    let q = Modulus { p };
    let asked = asked_of_certificate(q, n, m, starts, cols, vals, cert, y, x.len(), z.len(), work);
    if let Err(refusal) = asked {
        clear(x);
        clear(z);
        return Err(refusal);
    }
    Ok(answer_parts(q, n, m, cert, y, x, z, work))
}

// The call that answers a question from stored factors. Any content of x, z and the working row is accepted.
ghost use Rattle.std.specs.Prelude.{length};
ghost use Rattle.algebra.specs.Matrix.{vector};
ghost use Rattle.row_space.specs.Solve.{solve};
ghost use Rattle.answer_question.specs.Needs.{AnswerReady};
ghost use Rattle.answer_question.specs.Answering.{Answered};
ghost use Rattle.call_check.specs.Calls.{check_factors_of, Checks};
ghost use Rattle.refusals.specs.Outcome.{outcome_of};
ghost use Rattle.call_answer.specs.Calls.{given_answer, question_after, answer_factors_of, AnswersIn};
ghost use Rattle.sparse.specs.Views.{stored_before, set_at, set_before};

use crate::question::question_lengths;
use answer_question::answer::answer;
use answer_question::question::question_ok;
use call_check::from_factors::{check_stored, stored_set};
use lists::{clear, clear_row};
use refusals::{Fault, Refusal};
use residue::Modulus;
use row_space::Verdict;

// The tests of a call with stored factors: 9, 1, 2, 8, 11 to 14, 15. The working row is left all zero.
fn asked_of_factors(
    q: Modulus,
    n: u32,
    m: u32,
    starts: &[u32],
    cols: &[u32],
    vals: &[u32],
    r: u32,
    ro: &[u32],
    co: &[u32],
    ls: &[u32],
    lc: &[u32],
    lv: &[u32],
    us: &[u32],
    uc: &[u32],
    uv: &[u32],
    y: &[u32],
    xlen: usize,
    zlen: usize,
    work: &mut [u64],
) -> Result<(), Refusal>
    ensures { Checks (question_after (check_factors_of q.p n m (stored_before starts.now cols.now vals.now) (set_before r ro.now co.now ls.now lc.now lv.now us.now uc.now uv.now) (length work.old)) q.p n m y.now xlen zlen) (outcome_of result) work.old work.new }
{
    if !question_lengths(n, m, y, xlen, zlen) {
        clear_row(work);
        return Err(Fault::WrongLength.into());
    }
    check_stored(
        q, n, m, starts, cols, vals, r, ro, co, ls, lc, lv, us, uc, uv, work,
    )?;
    question_ok(y, q.p)
}

// The answer from stored factors that passed.
fn answer_stored(
    q: Modulus,
    r: u32,
    ro: &[u32],
    co: &[u32],
    ls: &[u32],
    lc: &[u32],
    lv: &[u32],
    us: &[u32],
    uc: &[u32],
    uv: &[u32],
    y: &[u32],
    x: &mut [u32],
    z: &mut [u32],
    work: &mut [u64],
) -> Verdict
    requires { AnswerReady q.p (set_at r ro.now co.now ls.now lc.now lv.now us.now uc.now uv.now) y.now x.old z.old work.old }
    ensures { Answered (solve q.p (length x.old) (length z.old) (set_before r ro.now co.now ls.now lc.now lv.now us.now uc.now uv.now) (vector y.now)) result x.new z.new work.new }
{
    let set = stored_set(r, ro, co, ls, lc, lv, us, uc, uv);
    answer(q, &set, y, x, z, work)
}

// Answers a question from stored factors.
//   takes    a stored plan (p, n, m, row starts, columns, values), a stored set (r, row order, column order, L, U), a question y
//            of m values, n cells for x, m cells for z and a working row
//   gives    open, with x such that x A = y; or closed, with z such that A z = 0 and y z is not 0; or the number and detail of the first fault
//   refuses  9, 1, 2, 8, 11, 12, 13, 14 at the first position, 15 at the first index
//   leaves   the one of x and z that is not the answer all zero, after a refusal both; the working row all zero
pub fn answer_from_factors(
    p: u32,
    n: u32,
    m: u32,
    starts: &[u32],
    cols: &[u32],
    vals: &[u32],
    r: u32,
    ro: &[u32],
    co: &[u32],
    ls: &[u32],
    lc: &[u32],
    lv: &[u32],
    us: &[u32],
    uc: &[u32],
    uv: &[u32],
    y: &[u32],
    x: &mut [u32],
    z: &mut [u32],
    work: &mut [u64],
) -> Result<Verdict, Refusal>
    ensures { AnswersIn (answer_factors_of p n m (stored_before starts.now cols.now vals.now) (set_before r ro.now co.now ls.now lc.now lv.now us.now uc.now uv.now) y.now) (given_answer result) x z work }
{
    let q = Modulus { p };
    let asked = asked_of_factors(
        q,
        n,
        m,
        starts,
        cols,
        vals,
        r,
        ro,
        co,
        ls,
        lc,
        lv,
        us,
        uc,
        uv,
        y,
        x.len(),
        z.len(),
        work,
    );
    if let Err(refusal) = asked {
        clear(x);
        clear(z);
        return Err(refusal);
    }
    Ok(answer_stored(q, r, ro, co, ls, lc, lv, us, uc, uv, y, x, z, work))
}

// The public calls that answer a question about a stored plan with owners.
ghost use Rattle.call_answer.specs.Calls.{given_answer, answer_factors_of, answer_certificate_of};
ghost use Rattle.call_owned.specs.Owned.{AnswersOwned};
ghost use Rattle.sparse.specs.Views.{stored_before, set_before};

use crate::owners_fit;
use lists::{clear, clear_row};
use refusals::{Fault, Refusal};
use row_space::Verdict;

// Answers a question from stored factors.
//   takes    a stored plan (p, n, m, row starts, columns, values), its m owners, a stored set (r, row order, column order, L, U), a question y
//            of m values, n cells for x, m cells for z and a working row
//   gives    open, with x such that x A = y; or closed, with z such that A z = 0 and y z is not 0; or the number and detail of the first fault
//   refuses  9, 1, 2, 8, 11, 12, 13, 14 at the first position, 15 at the first index
//   leaves   the one of x and z that is not the answer all zero, after a refusal both; the working row all zero
pub fn answer_from_factors(
    p: u32,
    n: u32,
    m: u32,
    starts: &[u32],
    cols: &[u32],
    vals: &[u32],
    owners: &[u8],
    r: u32,
    ro: &[u32],
    co: &[u32],
    ls: &[u32],
    lc: &[u32],
    lv: &[u32],
    us: &[u32],
    uc: &[u32],
    uv: &[u32],
    y: &[u32],
    x: &mut [u32],
    z: &mut [u32],
    work: &mut [u64],
) -> Result<Verdict, Refusal>
    ensures { AnswersOwned owners.now m (answer_factors_of p n m (stored_before starts.now cols.now vals.now) (set_before r ro.now co.now ls.now lc.now lv.now us.now uc.now uv.now) y.now) (given_answer result) x z work }
{
    if !owners_fit(m, owners) {
        clear(x);
        clear(z);
        clear_row(work);
        return Err(Fault::WrongLength.into());
    }
    call_answer::from_factors::answer_from_factors(
        p, n, m, starts, cols, vals, r, ro, co, ls, lc, lv, us, uc, uv, y, x, z, work,
    )
}

// Answers a question from a certificate, which is read from its own bytes.
//   takes    a stored plan, its m owners, the bytes of a certificate, a question y of m values, n cells for x, m cells for z and a working row
//   gives    open, with x such that x A = y; or closed, with z such that A z = 0 and y z is not 0; or the number and detail of the first fault
//   refuses  9, 1, 2, 8, 10, 11, 12, 13, 14 at the first position, 15 at the first index
//   leaves   the one of x and z that is not the answer all zero, after a refusal both; the working row all zero
pub fn answer_from_certificate(
    p: u32,
    n: u32,
    m: u32,
    starts: &[u32],
    cols: &[u32],
    vals: &[u32],
    owners: &[u8],
    cert: &[u8],
    y: &[u32],
    x: &mut [u32],
    z: &mut [u32],
    work: &mut [u64],
) -> Result<Verdict, Refusal>
    ensures { AnswersOwned owners.now m (answer_certificate_of p n m (stored_before starts.now cols.now vals.now) cert.now y.now) (given_answer result) x z work }
{
    if !owners_fit(m, owners) {
        clear(x);
        clear(z);
        clear_row(work);
        return Err(Fault::WrongLength.into());
    }
    call_answer::from_certificate::answer_from_certificate(
        p, n, m, starts, cols, vals, cert, y, x, z, work,
    )
}

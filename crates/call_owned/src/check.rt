// The public calls that check a set of factors against a stored plan with owners.
ghost use Rattle.call_check.specs.Calls.{check_factors_of, check_certificate_of};
ghost use Rattle.call_owned.specs.Owned.{ChecksOwned};
ghost use Rattle.refusals.specs.Outcome.{outcome_of};
ghost use Rattle.sparse.specs.Views.{stored_before, set_before};

use crate::owners_fit;
use lists::clear_row;
use refusals::{Fault, Refusal};

// Checks stored factors.
//   takes    a stored plan (p, n, m, row starts, columns, values), its m owners, a stored set (r, row order, column order, L, U) and a working row
//   gives    passed, or the number and detail of the first fault
//   refuses  9, 1, 2, 8, 11, 12, 13, 14 at the first position
//   leaves   the working row all zero
pub fn check_factors(
    p: u32,
    n: u32,
    m: u32,
    starts: &[u32],
    cols: &[u32],
    vals: &[u32],
    owners: &[u8],
    r: u32,
    ro: &[u32],
    co: &[u32],
    ls: &[u32],
    lc: &[u32],
    lv: &[u32],
    us: &[u32],
    uc: &[u32],
    uv: &[u32],
    work: &mut [u64],
) -> Result<(), Refusal>
    ensures { ChecksOwned owners.now m (check_factors_of p n m (stored_before starts.now cols.now vals.now) (set_before r ro.now co.now ls.now lc.now lv.now us.now uc.now uv.now)) (outcome_of result) work }
{
    if !owners_fit(m, owners) {
        clear_row(work);
        return Err(Fault::WrongLength.into());
    }
    call_check::check_factors(
        p, n, m, starts, cols, vals, r, ro, co, ls, lc, lv, us, uc, uv, work,
    )
}

// Checks a certificate, which is read from its own bytes.
//   takes    a stored plan, its m owners, the bytes of a certificate and a working row
//   gives    passed, or the number and detail of the first fault
//   refuses  9, 1, 2, 8, 10, 11, 12, 13, 14 at the first position
//   leaves   the working row all zero
pub fn check_certificate(
    p: u32,
    n: u32,
    m: u32,
    starts: &[u32],
    cols: &[u32],
    vals: &[u32],
    owners: &[u8],
    cert: &[u8],
    work: &mut [u64],
) -> Result<(), Refusal>
    ensures { ChecksOwned owners.now m (check_certificate_of p n m (stored_before starts.now cols.now vals.now) cert.now) (outcome_of result) work }
{
    if !owners_fit(m, owners) {
        clear_row(work);
        return Err(Fault::WrongLength.into());
    }
    call_check::check_certificate(p, n, m, starts, cols, vals, cert, work)
}

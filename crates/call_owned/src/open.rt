// The public calls that list the open columns (document 01's open words) of a stored plan with owners.
ghost use Rattle.call_open.specs.Calls.{open_factors_of, open_certificate_of};
ghost use Rattle.call_owned.specs.Owned.{ListsOwned};
ghost use Rattle.refusals.specs.Outcome.{outcome_of};
ghost use Rattle.sparse.specs.Views.{stored_before, set_before};

use crate::owners_fit;
use lists::{clear, clear_row};
use refusals::{Fault, Refusal};

// Lists the open columns from stored factors.
//   takes    a stored plan (p, n, m, row starts, columns, values), its m owners, a stored set (r, row order, column order, L, U), a list of m cells
//            and a working row
//   gives    1 for each column whose unit question is open and 0 for each other; or the number and detail of the first fault
//   refuses  9, 1, 2, 8, 11, 12, 13, 14 at the first position
//   leaves   after a refusal the list all zero; the working row all zero
pub fn open_columns_from_factors(
    p: u32,
    n: u32,
    m: u32,
    starts: &[u32],
    cols: &[u32],
    vals: &[u32],
    owners: &[u8],
    r: u32,
    ro: &[u32],
    co: &[u32],
    ls: &[u32],
    lc: &[u32],
    lv: &[u32],
    us: &[u32],
    uc: &[u32],
    uv: &[u32],
    marks: &mut [u32],
    work: &mut [u64],
) -> Result<(), Refusal>
    ensures { ListsOwned owners.now m (open_factors_of p n m (stored_before starts.now cols.now vals.now) (set_before r ro.now co.now ls.now lc.now lv.now us.now uc.now uv.now)) (outcome_of result) marks work }
{
    if !owners_fit(m, owners) {
        clear(marks);
        clear_row(work);
        return Err(Fault::WrongLength.into());
    }
    call_open::from_factors::open_columns_from_factors(
        p, n, m, starts, cols, vals, r, ro, co, ls, lc, lv, us, uc, uv, marks, work,
    )
}

// Lists the open columns from a certificate, which is read from its own bytes.
//   takes    a stored plan, its m owners, the bytes of a certificate, a list of m cells and a working row
//   gives    1 for each column whose unit question is open and 0 for each other; or the number and detail of the first fault
//   refuses  9, 1, 2, 8, 10, 11, 12, 13, 14 at the first position
//   leaves   after a refusal the list all zero; the working row all zero
pub fn open_columns_from_certificate(
    p: u32,
    n: u32,
    m: u32,
    starts: &[u32],
    cols: &[u32],
    vals: &[u32],
    owners: &[u8],
    cert: &[u8],
    marks: &mut [u32],
    work: &mut [u64],
) -> Result<(), Refusal>
    ensures { ListsOwned owners.now m (open_certificate_of p n m (stored_before starts.now cols.now vals.now) cert.now) (outcome_of result) marks work }
{
    if !owners_fit(m, owners) {
        clear(marks);
        clear_row(work);
        return Err(Fault::WrongLength.into());
    }
    call_open::from_certificate::open_columns_from_certificate(
        p, n, m, starts, cols, vals, cert, marks, work,
    )
}

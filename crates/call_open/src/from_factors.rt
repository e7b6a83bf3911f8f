// The call that lists the open columns from stored factors. Any content of the list and of the working row is accepted.
ghost use Rattle.call_open.specs.Calls.{open_factors_of, ListsIn};
ghost use Rattle.refusals.specs.Outcome.{outcome_of};
ghost use Rattle.sparse.specs.Views.{stored_before, set_before};

use answer_open::pivots::open_columns;
use call_check::from_factors::{check_stored, stored_set};
use lists::{clear, clear_row};
use refusals::{Fault, Refusal};
use residue::Modulus;

// Lists the open columns from stored factors.
//   takes    a stored plan (p, n, m, row starts, columns, values), a stored set (r, row order, column order, L, U), a list of m cells
//            and a working row
//   gives    1 for each column whose unit question is open and 0 for each other; or the number and detail of the first fault
//   refuses  9, 1, 2, 8, 11, 12, 13, 14 at the first position
//   leaves   after a refusal the list all zero; the working row all zero
pub fn open_columns_from_factors(
    p: u32,
    n: u32,
    m: u32,
    starts: &[u32],
    cols: &[u32],
    vals: &[u32],
    r: u32,
    ro: &[u32],
    co: &[u32],
    ls: &[u32],
    lc: &[u32],
    lv: &[u32],
    us: &[u32],
    uc: &[u32],
    uv: &[u32],
    marks: &mut [u32],
    work: &mut [u64],
) -> Result<(), Refusal>
    ensures { ListsIn (open_factors_of p n m (stored_before starts.now cols.now vals.now) (set_before r ro.now co.now ls.now lc.now lv.now us.now uc.now uv.now)) (outcome_of result) marks work }
{
    let q = Modulus { p };
    if marks.len() != m as usize {
        clear(marks);
        clear_row(work);
        return Err(Fault::WrongLength.into());
    }
    let checked = check_stored(
        q, n, m, starts, cols, vals, r, ro, co, ls, lc, lv, us, uc, uv, work,
    );
    if let Err(refusal) = checked {
        clear(marks);
        return Err(refusal);
    }
    let set = stored_set(r, ro, co, ls, lc, lv, us, uc, uv);
    let k = set.r as usize;
    open_columns(q, &set.co, &set.u, k, marks, work);
    Ok(())
}

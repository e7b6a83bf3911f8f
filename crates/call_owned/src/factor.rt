// The public call that factors a stored plan with owners.
ghost use Rattle.factor_all.specs.Factored.{factored_of};
ghost use Rattle.call_factor.specs.Lengths.{lent_of};
ghost use Rattle.call_factor.specs.Calls.{factor_call_of};
ghost use Rattle.call_owned.specs.Owned.{LeavesOwned};
ghost use Rattle.sparse.specs.Views.{stored_before, storage_before, storage_after};

use crate::owners_fit;
use factor_all::clearing::clear_all;
use factor_all::factor::Ranks;
use refusals::{Fault, Refusal};

// Factors a stored plan.
//   takes    a stored plan (p, n, m, row starts, columns, values) and its m owners; lent lists for R (n cells), C (m), L and U (n + 1 starts each,
//            columns and values of one length, whichever), and a working row; anything may stand in them
//   gives    0, the rank and the number of structural pivots; R, C, L and U in the lists, zero past their ends
//   refuses  9, 1, 2, 8, and 7 with the row after which L or U has more entries than its lists hold
//   leaves   after a refusal every lent list all zero; the working row all zero in any case
pub fn factor(
    p: u32,
    n: u32,
    m: u32,
    starts: &[u32],
    cols: &[u32],
    vals: &[u32],
    owners: &[u8],
    ro: &mut [u32],
    co: &mut [u32],
    ls: &mut [u32],
    lc: &mut [u32],
    lv: &mut [u32],
    us: &mut [u32],
    uc: &mut [u32],
    uv: &mut [u32],
    work: &mut [u64],
) -> Result<Ranks, Refusal>
    ensures { LeavesOwned owners.now m (factor_call_of p n m (stored_before starts.now cols.now vals.now) (lent_of (storage_before ro.old co.old ls.old lc.old lv.old us.old uc.old uv.old work.old))) (factored_of result) (storage_after ro.new co.new ls.new lc.new lv.new us.new uc.new uv.new work.new) }
{
    if !owners_fit(m, owners) {
        clear_all(ro, co, ls, lc, lv, us, uc, uv, work);
        return Err(Fault::WrongLength.into());
    }
    call_factor::factor(
        p, n, m, starts, cols, vals, ro, co, ls, lc, lv, us, uc, uv, work,
    )
}

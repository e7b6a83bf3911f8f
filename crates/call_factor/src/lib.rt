// The call that factors a stored plan, without owners; `call_owned` has the public one.
#![tactic(auto)]

ghost use Rattle.std.specs.Prelude.{◌≡◌};
ghost use Rattle.factor_all.specs.Factored.{factored_of};
ghost use Rattle.factor_all.specs.Factorization.{Leaves};
ghost use Rattle.call_factor.specs.Lengths.{lent_lengths, lent_outcome, lent_of};
ghost use Rattle.call_factor.specs.Calls.{factor_call_of};
ghost use Rattle.refusals.specs.Outcome.{Passed, outcome_of};
ghost use Rattle.sparse.specs.Views.{stored_at, stored_before, storage_at, storage_before, storage_after};

use call_plan::{plan_lengths, plan_outcome};
use factor_all::clearing::clear_all;
use factor_all::factor::Ranks;
use limits::WORK_CELLS;
use lists::index;
use refusals::{Fault, Refusal, demand};
use residue::Modulus;

// How long the lists are that are lent to factoring.
#[derive(Clone, Copy, Debug, PartialEq, Eq)]
pub struct Lent {
    pub rows: usize,
    pub columns: usize,
    pub ls: usize,
    pub lc: usize,
    pub lv: usize,
    pub us: usize,
    pub uc: usize,
    pub uv: usize,
    pub work: usize,
}

// Whether the lent lists have the lengths that factoring takes.
#[tactic(auto, unfolding(crate::specs::Lengths::lent_lengths))]
fn lent_lengths(n: u32, m: u32, lent: Lent) -> bool
    ensures { result ≡ lent_lengths n m lent }
{
    lent.rows == index(n)
        && lent.columns == index(m)
        && lent.ls == index(n) + 1
        && lent.lc == lent.lv
        && lent.us == index(n) + 1
        && lent.uc == lent.uv
        && lent.work == WORK_CELLS
}

// The lengths and the plan: 9, 1, 2, 8.
fn lent_outcome(
    p: u32,
    n: u32,
    m: u32,
    starts: &[u32],
    cols: &[u32],
    vals: &[u32],
    lent: Lent,
) -> Result<(), Refusal>
    ensures { outcome_of result ≡ lent_outcome p n m (stored_before starts.now cols.now vals.now) lent }
{
    let lengths = plan_lengths(n, starts, cols, vals) && lent_lengths(n, m, lent);
    demand(lengths, Fault::WrongLength)?;
    plan_outcome(p, n, m, starts, cols, vals)
}

// Factors a plan that passes the tests, into lists that do: for those who know, so that they are not made again.
pub fn factor_accepted(
    p: u32,
    n: u32,
    m: u32,
    starts: &[u32],
    cols: &[u32],
    vals: &[u32],
    ro: &mut [u32],
    co: &mut [u32],
    ls: &mut [u32],
    lc: &mut [u32],
    lv: &mut [u32],
    us: &mut [u32],
    uc: &mut [u32],
    uv: &mut [u32],
    work: &mut [u64],
) -> Result<Ranks, Refusal>
    requires { lent_outcome p n m (stored_at starts.now cols.now vals.now) (lent_of (storage_at ro.old co.old ls.old lc.old lv.old us.old uc.old uv.old work.old)) ≡ Passed }
    ensures { Leaves (factor_call_of p n m (stored_before starts.now cols.now vals.now) (lent_of (storage_before ro.old co.old ls.old lc.old lv.old us.old uc.old uv.old work.old))) (factored_of result) (storage_after ro.new co.new ls.new lc.new lv.new us.new uc.new uv.new work.new) }
{
    clear_all(ro, co, ls, lc, lv, us, uc, uv, work);
    let q = Modulus { p };
    factor_all::factor::factor(
        q, starts, cols, vals, n, m, ro, co, ls, lc, lv, us, uc, uv, work,
    )
}

// Factors a stored plan.
//   takes    a stored plan (p, n, m, row starts, columns, values); lent lists for R (n cells), C (m), L and U (n + 1 starts each, columns and values of
//            one length, whichever), and a working row; anything may stand in them
//   gives    the rank and the number of structural pivots; R, C, L and U in the lists, zero past their ends
//   refuses  9, 1, 2, 8, and 7 with the row after which L or U has more entries than its lists hold
//   leaves   after a refusal every lent list all zero; the working row all zero in any case
pub fn factor(
    p: u32,
    n: u32,
    m: u32,
    starts: &[u32],
    cols: &[u32],
    vals: &[u32],
    ro: &mut [u32],
    co: &mut [u32],
    ls: &mut [u32],
    lc: &mut [u32],
    lv: &mut [u32],
    us: &mut [u32],
    uc: &mut [u32],
    uv: &mut [u32],
    work: &mut [u64],
) -> Result<Ranks, Refusal>
    ensures { Leaves (factor_call_of p n m (stored_before starts.now cols.now vals.now) (lent_of (storage_before ro.old co.old ls.old lc.old lv.old us.old uc.old uv.old work.old))) (factored_of result) (storage_after ro.new co.new ls.new lc.new lv.new us.new uc.new uv.new work.new) }
{
    let lent = Lent {
        rows: ro.len(),
        columns: co.len(),
        ls: ls.len(),
        lc: lc.len(),
        lv: lv.len(),
        us: us.len(),
        uc: uc.len(),
        uv: uv.len(),
        work: work.len(),
    };
    if let Err(refusal) = lent_outcome(p, n, m, starts, cols, vals, lent) {
        clear_all(ro, co, ls, lc, lv, us, uc, uv, work);
        return Err(refusal);
    }
    factor_accepted(
        p, n, m, starts, cols, vals, ro, co, ls, lc, lv, us, uc, uv, work,
    )
}

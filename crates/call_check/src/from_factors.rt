// The call that checks stored factors against a stored plan. Any content of the working row is accepted.
ghost use Rattle.std.specs.Prelude.{◌≡◌};
ghost use Rattle.call_check.specs.Calls.{factors_outcome, check_factors_of, ChecksIn};
ghost use Rattle.refusals.specs.Outcome.{outcome_of};
ghost use Rattle.sparse.specs.Views.{stored_before, set_before, set_in};

use call_plan::{plan_lengths, plan_outcome, set_lengths};
use check_set::check;
use limits::WORK_CELLS;
use lists::clear_row;
use refusals::{Fault, Refusal, demand};
use residue::Modulus;
use sparse::set::Factors;
use sparse::stored::Compressed;
use sparse::words::Words;

// The lengths and the plan of a call with stored factors: 9, 1, 2, 8.
fn factors_outcome(
    p: u32,
    n: u32,
    m: u32,
    starts: &[u32],
    cols: &[u32],
    vals: &[u32],
    r: u32,
    ro: &[u32],
    co: &[u32],
    ls: &[u32],
    lc: &[u32],
    lv: &[u32],
    us: &[u32],
    uc: &[u32],
    uv: &[u32],
    width: usize,
) -> Result<(), Refusal>
    ensures { outcome_of result ≡ factors_outcome p n m (stored_before starts.now cols.now vals.now) (set_before r ro.now co.now ls.now lc.now lv.now us.now uc.now uv.now) width }
{
    let lengths = plan_lengths(n, starts, cols, vals)
        && set_lengths(n, m, r, ro, co, ls, lc, lv, us, uc, uv)
        && width == WORK_CELLS;
    demand(lengths, Fault::WrongLength)?;
    plan_outcome(p, n, m, starts, cols, vals)
}

// A set in stored lists.
pub fn stored_set<'a>(
    r: u32,
    ro: &'a [u32],
    co: &'a [u32],
    ls: &'a [u32],
    lc: &'a [u32],
    lv: &'a [u32],
    us: &'a [u32],
    uc: &'a [u32],
    uv: &'a [u32],
) -> Factors<'a>
    ensures { set_in result ≡ set_before r ro.entry.now co.entry.now ls.entry.now lc.entry.now lv.entry.now us.entry.now uc.entry.now uv.entry.now }
{
    Factors {
        r,
        ro: Words::stored(ro),
        co: Words::stored(co),
        l: Compressed::stored(ls, lc, lv),
        u: Compressed::stored(us, uc, uv),
    }
}

// The check of stored factors for a call that has made its modulus: the other calls on a stored set begin with it.
pub fn check_stored(
    q: Modulus,
    n: u32,
    m: u32,
    starts: &[u32],
    cols: &[u32],
    vals: &[u32],
    r: u32,
    ro: &[u32],
    co: &[u32],
    ls: &[u32],
    lc: &[u32],
    lv: &[u32],
    us: &[u32],
    uc: &[u32],
    uv: &[u32],
    work: &mut [u64],
) -> Result<(), Refusal>
    ensures { ChecksIn (check_factors_of q.p n m (stored_before starts.now cols.now vals.now) (set_before r ro.now co.now ls.now lc.now lv.now us.now uc.now uv.now)) (outcome_of result) work }
{
    clear_row(work);
    factors_outcome(
        q.p,
        n,
        m,
        starts,
        cols,
        vals,
        r,
        ro,
        co,
        ls,
        lc,
        lv,
        us,
        uc,
        uv,
        work.len(),
    )?;
    let plan = Compressed::stored(starts, cols, vals);
    let set = stored_set(r, ro, co, ls, lc, lv, us, uc, uv);
    check(q, &plan, &set, n, m, work)
}

// Checks stored factors.
//   takes    a stored plan (p, n, m, row starts, columns, values), a stored set (r, row order, column order, L, U) and a working row
//   gives    passed, or the number and detail of the first fault
//   refuses  9, 1, 2, 8, 11, 12, 13, 14 at the first position
//   leaves   the working row all zero
pub fn check_factors(
    p: u32,
    n: u32,
    m: u32,
    starts: &[u32],
    cols: &[u32],
    vals: &[u32],
    r: u32,
    ro: &[u32],
    co: &[u32],
    ls: &[u32],
    lc: &[u32],
    lv: &[u32],
    us: &[u32],
    uc: &[u32],
    uv: &[u32],
    work: &mut [u64],
) -> Result<(), Refusal>
    ensures { ChecksIn (check_factors_of p n m (stored_before starts.now cols.now vals.now) (set_before r ro.now co.now ls.now lc.now lv.now us.now uc.now uv.now)) (outcome_of result) work }
{
    let q = Modulus { p };
    check_stored(
        q, n, m, starts, cols, vals, r, ro, co, ls, lc, lv, us, uc, uv, work,
    )
}

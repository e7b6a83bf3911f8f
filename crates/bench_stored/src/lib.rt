// Calls on a stored plan for the benchmark alone (include/plq_timing.h): factoring, the check and the list of open columns, each without the reading of a text, in
// lists of the caller's that may be longer than the library's own.
#![tactic(auto)]

ghost use Rattle.std.specs.Prelude.{◌≡◌};
ghost use Rattle.refusals.specs.Outcome.{outcome_of};
ghost use Rattle.refusals.specs.Refusals.{number_of};
ghost use Rattle.factor_all.specs.Factored.{factored_of};
ghost use Rattle.call_factor.specs.Lengths.{lent_of};
ghost use Rattle.call_factor.specs.Calls.{factor_call_of};
ghost use Rattle.call_check.specs.Calls.{check_factors_of};
ghost use Rattle.call_open.specs.Calls.{open_factors_of};
ghost use Rattle.bench_stored.specs.Timed.{rank_if_passed, FactorTimed, CheckTimed, OpenTimed};
ghost use Rattle.sparse.specs.Views.{stored_before, set_before, storage_before, storage_after};

use call_check::from_factors::check_factors;
use call_factor::factor;
use call_open::from_factors::open_columns_from_factors;
use factor_all::factor::Ranks;
use refusals::Refusal;

// The number of document 01's table, 0 where the call passed.
fn number_of(tested: Result<(), Refusal>) -> u64
    ensures { result ≡ number_of (outcome_of tested) }
{
    match tested {
        Ok(()) => 0,
        Err(refusal) => u32::from(refusal.fault) as u64,
    }
}

// The rank, 0 where factoring was refused.
fn rank_of(factored: Result<Ranks, Refusal>) -> u64
    ensures { let f = factored_of factored in result ≡ rank_if_passed f.outcome f.rank }
{
    match factored {
        Ok(ranks) => ranks.rank as u64,
        Err(_) => 0,
    }
}

// Factors a stored plan: the library's `factor` without owners.
//   gives    the rank; 0 where factoring refuses
//   leaves   what `factor` leaves
#[unsafe(no_mangle)]
pub extern "C" fn plq_time_factor(
    p: u32,
    n: u32,
    m: u32,
    starts: &[u32],
    cols: &[u32],
    vals: &[u32],
    ro: &mut [u32],
    co: &mut [u32],
    ls: &mut [u32],
    lc: &mut [u32],
    lv: &mut [u32],
    us: &mut [u32],
    uc: &mut [u32],
    uv: &mut [u32],
    work: &mut [u64],
) -> u64
    ensures { FactorTimed (factor_call_of p n m (stored_before starts.now cols.now vals.now) (lent_of (storage_before ro.old co.old ls.old lc.old lv.old us.old uc.old uv.old work.old))) result (storage_after ro.new co.new ls.new lc.new lv.new us.new uc.new uv.new work.new) }
{
    let factored = factor(
        p, n, m, starts, cols, vals, ro, co, ls, lc, lv, us, uc, uv, work,
    );
    rank_of(factored)
}

// Checks stored factors: the library's `check_factors` without owners.
//   gives    the number of document 01's table, 0 where the set passes
//   leaves   the working row all zero
#[unsafe(no_mangle)]
pub extern "C" fn plq_time_check(
    p: u32,
    n: u32,
    m: u32,
    starts: &[u32],
    cols: &[u32],
    vals: &[u32],
    r: u32,
    ro: &[u32],
    co: &[u32],
    ls: &[u32],
    lc: &[u32],
    lv: &[u32],
    us: &[u32],
    uc: &[u32],
    uv: &[u32],
    work: &mut [u64],
) -> u64
    ensures { CheckTimed (check_factors_of p n m (stored_before starts.now cols.now vals.now) (set_before r ro.now co.now ls.now lc.now lv.now us.now uc.now uv.now)) result work }
{
    let checked = check_factors(
        p, n, m, starts, cols, vals, r, ro, co, ls, lc, lv, us, uc, uv, work,
    );
    number_of(checked)
}

// Checks stored factors and lists the open columns: the library's `open_columns_from_factors` without owners.
//   gives    the number of document 01's table, 0 where the set passes
//   leaves   1 for each open column and 0 for each other, all zero after a refusal; the working row all zero
#[unsafe(no_mangle)]
pub extern "C" fn plq_time_open(
    p: u32,
    n: u32,
    m: u32,
    starts: &[u32],
    cols: &[u32],
    vals: &[u32],
    r: u32,
    ro: &[u32],
    co: &[u32],
    ls: &[u32],
    lc: &[u32],
    lv: &[u32],
    us: &[u32],
    uc: &[u32],
    uv: &[u32],
    marks: &mut [u32],
    work: &mut [u64],
) -> u64
    ensures { OpenTimed (open_factors_of p n m (stored_before starts.now cols.now vals.now) (set_before r ro.now co.now ls.now lc.now lv.now us.now uc.now uv.now)) result marks work }
{
    let listed = open_columns_from_factors(
        p, n, m, starts, cols, vals, r, ro, co, ls, lc, lv, us, uc, uv, marks, work,
    );
    number_of(listed)
}

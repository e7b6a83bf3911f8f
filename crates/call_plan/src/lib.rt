// The tests that every call on a stored plan begins with.
#![tactic(auto)]

ghost use Rattle.std.specs.Prelude.{◌≡◌};
ghost use Rattle.call_plan.specs.Tests.{plan_lengths, set_lengths, limits_ok, plan_outcome};
ghost use Rattle.refusals.specs.Outcome.{outcome_of};
ghost use Rattle.sparse.specs.Views.{stored_before, set_before};

use limits::{ENTRY_CELLS, LARGEST_SIZE};
use lists::index;
use refusals::{Fault, Refusal, demand};
use residue::is_modulus;
use sparse::form::form_ok;
use sparse::stored::Compressed;

// Whether the lists of a matrix of n rows have their lengths.
#[tactic(auto, unfolding(crate::specs::Tests::plan_lengths))]
pub fn plan_lengths(n: u32, starts: &[u32], cols: &[u32], vals: &[u32]) -> bool
    ensures { result ≡ plan_lengths n (stored_before starts.now cols.now vals.now) }
{
    starts.len() == index(n) + 1 && cols.len() == vals.len()
}

// Whether the lists of a set of rank r for an n by m matrix have their lengths.
#[tactic(auto, unfolding(crate::specs::Tests::set_lengths))]
pub fn set_lengths(
    n: u32,
    m: u32,
    r: u32,
    ro: &[u32],
    co: &[u32],
    ls: &[u32],
    lc: &[u32],
    lv: &[u32],
    us: &[u32],
    uc: &[u32],
    uv: &[u32],
) -> bool
    ensures { result ≡ set_lengths n m (set_before r ro.now co.now ls.now lc.now lv.now us.now uc.now uv.now) }
{
    ro.len() == index(n)
        && co.len() == index(m)
        && plan_lengths(n, ls, lc, lv)
        && plan_lengths(r, us, uc, uv)
}

// Whether the sizes and the entry count of a plan keep the limits.
#[tactic(auto, unfolding(crate::specs::Tests::limits_ok))]
fn limits_ok(n: u32, m: u32, starts: &[u32], cols: &[u32], vals: &[u32]) -> bool
    ensures { result ≡ limits_ok n m (stored_before starts.now cols.now vals.now) }
{
    n <= LARGEST_SIZE && m <= LARGEST_SIZE && cols.len() <= ENTRY_CELLS
}

// 1, 2 and 8.
pub fn plan_outcome(
    p: u32,
    n: u32,
    m: u32,
    starts: &[u32],
    cols: &[u32],
    vals: &[u32],
) -> Result<(), Refusal>
    ensures { outcome_of result ≡ plan_outcome p n m (stored_before starts.now cols.now vals.now) }
{
    demand(is_modulus(p), Fault::BadModulus)?;
    demand(limits_ok(n, m, starts, cols, vals), Fault::OverLimit)?;
    demand(
        form_ok(&Compressed::stored(starts, cols, vals), m, p),
        Fault::BadPlan,
    )
}

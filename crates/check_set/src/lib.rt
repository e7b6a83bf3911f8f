// The check of a set against a stored matrix: refusals 11 to 14, in order.
#![tactic(auto)]

ghost use Rattle.std.specs.Prelude.{◌≡◌};
ghost use Rattle.refusals.specs.Outcome.{outcome_of};
ghost use Rattle.pluq.specs.Judge.{judge_factors, judge};
ghost use Rattle.check_set.specs.Needs.{Judgeable, Checkable};
ghost use Rattle.sparse.specs.Views.{set_in};

use check_product::first_differing;
use check_shape::lower::lower_ok;
use check_shape::order::is_permutation;
use check_shape::upper::upper_ok;
use refusals::{Fault, Refusal, demand};
use residue::Modulus;
use sparse::form::form_ok;
use sparse::set::Factors;
use sparse::stored::Compressed;

// 13, then 14.
pub fn judge_factors(
    q: Modulus,
    plan: &Compressed,
    f: &Factors,
    n: u32,
    m: u32,
    work: &mut [u64],
) -> Result<(), Refusal>
    requires { Judgeable q.p n m plan.now (set_in f.now) work.old }
    ensures { (outcome_of result ≡ judge_factors q.p n m plan.now (set_in f.now)) × (work.new ≡ work.old) }
{
    let r = f.r as usize;
    demand(form_ok(&f.l, f.r, q.p), Fault::BadFactors)?;
    demand(form_ok(&f.u, m, q.p), Fault::BadFactors)?;
    demand(lower_ok(&f.l, q.p, r), Fault::BadFactors)?;
    demand(upper_ok(&f.u, &f.co, q.p, r, work), Fault::BadFactors)?;
    let i = first_differing(q, plan, &f.ro, &f.l, &f.u, r, n as usize, work);
    if i < n as usize {
        return Err(Refusal {
            fault: Fault::ProductDiffers,
            detail: i as u32,
        });
    }
    Ok(())
}

// 11, then 12, then the factors.
pub fn check(
    q: Modulus,
    plan: &Compressed,
    f: &Factors,
    n: u32,
    m: u32,
    work: &mut [u64],
) -> Result<(), Refusal>
    requires { Checkable q.p n m plan.now (set_in f.now) work.old }
    ensures { (outcome_of result ≡ judge q.p n m plan.now (set_in f.now)) × (work.new ≡ work.old) }
{
    demand(is_permutation(&f.ro, work), Fault::NoPermutation)?;
    demand(is_permutation(&f.co, work), Fault::NoPermutation)?;
    demand(f.r <= n, Fault::RankTooLarge)?;
    demand(f.r <= m, Fault::RankTooLarge)?;
    judge_factors(q, plan, f, n, m, &mut work[..m as usize])
}

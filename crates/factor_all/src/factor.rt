// Factoring of a stored matrix into lent lists. The names of the lists: `ro` and `co` are the orders R and C, `ls`, `lc`, `lv` the
// starts, columns and values of L, `us`, `uc`, `uv` those of U.
ghost use Rattle.std.specs.Prelude.{length};
ghost use Rattle.sparse.specs.Views.{stored_at, stored_before, storage_at, storage_before, storage_after};
ghost use Rattle.factor_all.specs.Factored.{factored_of};
ghost use Rattle.factor_all.specs.Factorization.{factoring, Leaves};
ghost use Rattle.factor_passes.specs.Needs.{FromReady};
ghost use Rattle.factor_all.specs.Needs.{factoring_in, FactorReady};

use crate::clearing::clear_all;
use factor_order::pairs::structural_pairs;
use factor_passes::passes::{pass_one, pass_two};
use refusals::{Fault, Refusal};
use residue::Modulus;

// What factoring gives: the rank, and the number of structural pivots.
#[derive(Clone, Copy, Debug, PartialEq, Eq)]
pub struct Ranks {
    pub rank: u32,
    pub structural: u32,
}

// Factors from the s pairs that R and C hold, whichever rule chose them.
pub fn factor_from(
    q: Modulus,
    starts: &[u32],
    cols: &[u32],
    vals: &[u32],
    s: usize,
    ro: &mut [u32],
    co: &mut [u32],
    ls: &mut [u32],
    lc: &mut [u32],
    lv: &mut [u32],
    us: &mut [u32],
    uc: &mut [u32],
    uv: &mut [u32],
    work: &mut [u64],
) -> Result<Ranks, Refusal>
    requires { FromReady q.p s (stored_at starts.now cols.now vals.now) (storage_at ro.old co.old ls.old lc.old lv.old us.old uc.old uv.old work.old) }
    ensures { Leaves (factoring_in q.p s (stored_before starts.now cols.now vals.now) (storage_before ro.old co.old ls.old lc.old lv.old us.old uc.old uv.old work.old)) (factored_of result) (storage_after ro.new co.new ls.new lc.new lv.new us.new uc.new uv.new work.new) }
{
    let pass = pass_one(
        q, starts, cols, vals, s, ro, co, ls, lc, lv, us, uc, uv, work,
    );
    let stop = pass.stop;
    let progress = pass.progress;
    let over = progress.over;
    let r = progress.r;
    let l = progress.l;
    let total = progress.total;
    if over {
        clear_all(ro, co, ls, lc, lv, us, uc, uv, work);
        return Err(Refusal {
            fault: Fault::StorageTooShort,
            detail: stop,
        });
    }
    pass_two(r, l, total, ro, co, ls, lc, lv, work);
    let rank = r as u32;
    let structural = s as u32;
    Ok(Ranks { rank, structural })
}

// Factors an n by m matrix modulo the prime p of q.
// Takes: the matrix in its stored form; `ro` of n cells, `co` of m, `ls` and `us` of n + 1; `lc` as long as `lv` and `uc` as
// `uv`, of any length; a working row of at least n and m cells; everything lent all zero.
// Gives: the rank and the number of structural pivots.
// Refuses with: 7 and the row, where L or U has more entries than its lists hold.
// Leaves: R, C, L and U, zero past their ends; all zero on a refusal; the working row all zero.
pub fn factor(
    q: Modulus,
    starts: &[u32],
    cols: &[u32],
    vals: &[u32],
    n: u32,
    m: u32,
    ro: &mut [u32],
    co: &mut [u32],
    ls: &mut [u32],
    lc: &mut [u32],
    lv: &mut [u32],
    us: &mut [u32],
    uc: &mut [u32],
    uv: &mut [u32],
    work: &mut [u64],
) -> Result<Ranks, Refusal>
    requires { FactorReady q.p n m (stored_at starts.now cols.now vals.now) (storage_at ro.old co.old ls.old lc.old lv.old us.old uc.old uv.old work.old) }
    ensures { Leaves (factoring q.p n m (stored_before starts.now cols.now vals.now) (length lc.old) (length uc.old)) (factored_of result) (storage_after ro.new co.new ls.new lc.new lv.new us.new uc.new uv.new work.new) }
{
    let s = structural_pairs(
        starts,
        cols,
        vals,
        q.p,
        n as usize,
        ro,
        co,
        &mut work[..m as usize],
    );
    factor_from(
        q, starts, cols, vals, s, ro, co, ls, lc, lv, us, uc, uv, work,
    )
}

// The first pass of the factoring: the pivots, U, and the rows of L, those of dependent rows at the end.
ghost use Rattle.std.specs.Prelude.{◌≡◌, ◌≤◌, length};
ghost use Rattle.factor_turn.specs.Passing.{PassLeaves};
ghost use Rattle.factor_turn.specs.Needs.{PassReady};
ghost use Rattle.factor_turn.specs.Others.{RowsTaken};
ghost use Rattle.factor_first.specs.Dense.{fits_block};
ghost use Rattle.factor_first.specs.Needs.{RemainingReady};
ghost use Rattle.sparse.specs.Views.{stored_at, stored_before, storage_at, storage_before, storage_after};

use crate::dense::find_dense;
use factor_others::rows::find_others;
use factor_turn::turn::{Pass, Progress, take_pair_row};
use residue::Modulus;

// Whether at most 32 of n rows and 32 of m columns are left after the first s.
fn fits_block(n: usize, m: usize, s: usize) -> bool
    requires { (s ≤ n) × (s ≤ m) }
    ensures { result ≡ fits_block n m s }
{
    if n - s <= 32 {
        return m - s <= 32;
    }
    false
}

// Takes the rows after the first s of `ro`: in the block where what is left fits it, otherwise one by one.
fn find_rest(
    q: Modulus,
    starts: &[u32],
    cols: &[u32],
    vals: &[u32],
    s: usize,
    from: Progress,
    ro: &mut [u32],
    co: &mut [u32],
    ls: &mut [u32],
    lc: &mut [u32],
    lv: &mut [u32],
    us: &mut [u32],
    uc: &mut [u32],
    uv: &mut [u32],
    work: &mut [u64],
) -> Pass
    requires { RemainingReady q.p s (stored_at starts.now cols.now vals.now) (storage_at ro.old co.old ls.old lc.old lv.old us.old uc.old uv.old work.old) from }
    ensures { RowsTaken q.p s (stored_before starts.now cols.now vals.now) (storage_before ro.old co.old ls.old lc.old lv.old us.old uc.old uv.old work.old) (storage_after ro.new co.new ls.new lc.new lv.new us.new uc.new uv.new work.new) from result }
{
    if fits_block(ro.len(), work.len(), s) {
        return find_dense(
            q, starts, cols, vals, s, from, ro, co, ls, lc, lv, us, uc, uv, work,
        );
    }
    find_others(
        q, starts, cols, vals, s, from, ro, co, ls, lc, lv, us, uc, uv, work,
    )
}

// Takes the rows in the order of `ro`: the first s as they stand, with their columns in `co`, then the others. The pivot
// rows and columns are entered in place: row r of them is written when row k is taken, and r is at most k.
pub fn find_pivots(
    q: Modulus,
    starts: &[u32],
    cols: &[u32],
    vals: &[u32],
    s: usize,
    ro: &mut [u32],
    co: &mut [u32],
    ls: &mut [u32],
    lc: &mut [u32],
    lv: &mut [u32],
    us: &mut [u32],
    uc: &mut [u32],
    uv: &mut [u32],
    work: &mut [u64],
) -> Pass
    requires { PassReady q.p s (stored_at starts.now cols.now vals.now) (storage_at ro.old co.old ls.old lc.old lv.old us.old uc.old uv.old work.old) }
    ensures { PassLeaves q.p s (length work.old) (stored_before starts.now cols.now vals.now) (storage_before ro.old co.old ls.old lc.old lv.old us.old uc.old uv.old work.old) (storage_after ro.new co.new ls.new lc.new lv.new us.new uc.new uv.new work.new) result }
{
    let mut progress = Progress {
        over: false,
        r: 0,
        at: 0,
        l: 0,
        total: 0,
        d: 0,
    };
    for k in 0..s {
        let i = ro[k];
        progress = take_pair_row(
            q, starts, cols, vals, i, progress, ro, co, ls, lc, lv, us, uc, uv, work,
        );
        let over = progress.over;
        if over {
            return Pass {
                stop: i,
                progress: progress,
            };
        }
    }
    if s < ro.len() {
        return find_rest(
            q, starts, cols, vals, s, progress, ro, co, ls, lc, lv, us, uc, uv, work,
        );
    }
    Pass {
        stop: 0,
        progress: progress,
    }
}

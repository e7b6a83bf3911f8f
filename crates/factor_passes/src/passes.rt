// The pass over the rows, with the orders completed first by the rows that it takes after the pairs and the columns that its block has; and what
// is done after it: the orders are completed by what the factors lack, and L's lists turned round. The working row marks the rows or the
// columns of an order while it is completed.
ghost use Rattle.std.specs.Prelude.{◌≤◌, length};
ghost use Rattle.factor_turn.specs.Passing.{PassLeaves};
ghost use Rattle.factor_order.specs.Needs.{Completable};
ghost use Rattle.factor_passes.specs.Completing.{ColumnsCompleted, Completes};
ghost use Rattle.factor_passes.specs.Needs.{FromReady, CompleteReady};
ghost use Rattle.sparse.specs.Views.{stored_at, stored_before, stored_after, storage_at, storage_before, storage_after};

use factor_first::pass::find_pivots;
use factor_order::complete::complete;
use factor_turn::keeping::turn_lower;
use factor_turn::turn::Pass;
use residue::Modulus;

// Completes C where what is left of n rows after the first s fits the block: its columns are then those after the first s.
fn complete_columns(n: usize, s: usize, co: &mut [u32], marks: &mut [u64])
    requires { (s ≤ n) × Completable s co.old marks.old }
    ensures { ColumnsCompleted n s co.old co.new marks.new }
{
    if 32 < n - s {
        return;
    }
    if 32 < co.len() - s {
        return;
    }
    complete(s, co, marks);
}

// Takes the s pairs that R and C hold, then the other rows, rising.
pub fn pass_one(
    q: Modulus,
    starts: &[u32],
    cols: &[u32],
    vals: &[u32],
    s: usize,
    ro: &mut [u32],
    co: &mut [u32],
    ls: &mut [u32],
    lc: &mut [u32],
    lv: &mut [u32],
    us: &mut [u32],
    uc: &mut [u32],
    uv: &mut [u32],
    work: &mut [u64],
) -> Pass
    requires { FromReady q.p s (stored_at starts.now cols.now vals.now) (storage_at ro.old co.old ls.old lc.old lv.old us.old uc.old uv.old work.old) }
    ensures { PassLeaves q.p s (length co.old) (stored_before starts.now cols.now vals.now) (storage_before ro.old co.old ls.old lc.old lv.old us.old uc.old uv.old work.old) (storage_after ro.new co.new ls.new lc.new lv.new us.new uc.new uv.new work.new) result }
{
    let n = ro.len();
    let m = co.len();
    complete(s, ro, &mut work[..n]);
    complete_columns(n, s, co, &mut work[..m]);
    find_pivots(
        q,
        starts,
        cols,
        vals,
        s,
        ro,
        co,
        ls,
        lc,
        lv,
        us,
        uc,
        uv,
        &mut work[..m],
    )
}

// Completes R and C, of which the first r are the pivots', and turns the rows of L round that are at the end of its lists: l entries are those of
// the pivot rows, `total` all.
pub fn pass_two(
    r: usize,
    l: usize,
    total: usize,
    ro: &mut [u32],
    co: &mut [u32],
    ls: &mut [u32],
    lc: &mut [u32],
    lv: &mut [u32],
    work: &mut [u64],
)
    requires { CompleteReady ro.old co.old (stored_at ls.old lc.old lv.old) work.old r l total }
    ensures { Completes ro.old co.old (stored_before ls.old lc.old lv.old) work.old ro.new co.new (stored_after ls.new lc.new lv.new) work.new r l total }
{
    let n = ro.len();
    let m = co.len();
    complete(r, co, &mut work[..m]);
    complete(r, ro, &mut work[..n]);
    turn_lower(r, l, total, ls, lc, lv);
}

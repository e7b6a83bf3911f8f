// One row of the matrix is taken as it stands.
ghost use Rattle.std.specs.Prelude.{length};
ghost use Rattle.sparse.specs.Views.{stored_at};
ghost use Rattle.factor_row.specs.Gathering.{as_it_stands};
ghost use Rattle.factor_row.specs.Entries.{entries_at, entries_before, entries_after, row_before};
ghost use Rattle.factor_row.specs.Taking.{RowFound};
ghost use Rattle.factor_row.specs.Needs.{PairReady};

use crate::pivot_copy::copy_pivot;
use crate::pivot_row::Step;
use lists::{index, part};
use residue::Modulus;

// Row i becomes the pivot row of column c as it stands. It is copied; the working row, all zero, gives only its length.
pub fn take_pair(
    q: Modulus,
    starts: &[u32],
    cols: &[u32],
    vals: &[u32],
    i: usize,
    c: usize,
    r: usize,
    at: usize,
    l: usize,
    total: usize,
    lc: &mut [u32],
    lv: &mut [u32],
    uc: &mut [u32],
    uv: &mut [u32],
    work: &mut [u64],
) -> Step
    requires { PairReady q.p i c r at l total (stored_at starts.now cols.now vals.now) work.old (entries_at lc.old lv.old uc.old uv.old) }
    ensures { RowFound q.p at l total (as_it_stands (length work.old) r c (row_before starts.now cols.now vals.now i)) (entries_before lc.old lv.old uc.old uv.old) (entries_after lc.new lv.new uc.new uv.new) work.new result }
{
    let a = index(starts[i]);
    let e = index(starts[i + 1]);
    let m = work.len();
    copy_pivot(
        q,
        part(cols, a, e),
        part(vals, a, e),
        m,
        c,
        r,
        at,
        l,
        total,
        lc,
        lv,
        uc,
        uv,
    )
}

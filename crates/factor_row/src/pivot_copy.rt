// A stored row becomes a pivot row as it stands: it is copied entry by entry, and no working row is gone through.
ghost use Rattle.std.specs.Prelude.{◌≡◌};
ghost use Rattle.sparse.specs.Row.{entry};
ghost use Rattle.factor_row.specs.Gathering.{as_it_stands};
ghost use Rattle.factor_row.specs.Entries.{entries_at, entries_before, entries_after};
ghost use Rattle.factor_row.specs.Taking.{PivotFound};
ghost use Rattle.factor_row.specs.Needs.{PivotCopyReady};

use crate::pivot_row::{Step, fits};
use residue::Modulus;
use sparse::copying::copy_scaled;
use sparse::lookup::value_at;

// Stores the row, divided by its value at column c, as row r of U, and that value as an entry of L, if they fit. The number m of
// columns bounds those of the row and is not computed with.
pub fn copy_pivot(
    q: Modulus,
    cols: &[u32],
    vals: &[u32],
    m: usize,
    c: usize,
    r: usize,
    at: usize,
    l: usize,
    total: usize,
    lc: &mut [u32],
    lv: &mut [u32],
    uc: &mut [u32],
    uv: &mut [u32],
) -> Step
    requires { PivotCopyReady q.p m c r at l total cols.now vals.now (entries_at lc.old lv.old uc.old uv.old) }
    ensures { (result.column ≡ c) × PivotFound q.p at l total (as_it_stands m r c (entry cols.now vals.now)) (entries_before lc.old lv.old uc.old uv.old) (entries_after lc.new lv.new uc.new uv.new) result }
{
    if !fits(lc.len(), total, uc.len(), at, cols.len()) {
        return Step {
            over: true,
            column: c,
            at: at,
            l: l,
            total: total,
        };
    }
    let v = value_at(cols, vals, c as u32);
    lc[l] = r as u32;
    lv[l] = v;
    let next = copy_scaled(q, q.invert(v), cols, vals, at, uc, uv);
    Step {
        over: false,
        column: c,
        at: next,
        l: l + 1,
        total: total + 1,
    }
}

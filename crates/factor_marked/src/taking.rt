// One row of the matrix is taken.
ghost use Rattle.std.specs.Prelude.{length};
ghost use Rattle.sparse.specs.Views.{stored_at};
ghost use Rattle.factor_row.specs.Gathering.{reduction_by};
ghost use Rattle.factor_row.specs.Entries.{entries_at, entries_before, entries_after, row_before, front_before, cut_before};
ghost use Rattle.factor_row.specs.Taking.{RowFound};
ghost use Rattle.factor_marked.specs.Marking.{RemainderTaken};
ghost use Rattle.factor_marked.specs.Needs.{RemainderReady, MarkedReady};

use crate::gathering::gather_row;
use crate::settled_pivot::store_settled_pivot;
use factor_row::pivot_row::Step;
use factor_touch::settling::settle;
use residue::Modulus;

// Settles what remains of a row. It becomes row r of U, with its entry of L at place `next`; where nothing remains the row is
// dependent and all zero, and L goes on at place l.
fn take_remainder(
    q: Modulus,
    r: usize,
    at: usize,
    l: usize,
    next: usize,
    total: usize,
    touched: &[u8],
    lc: &mut [u32],
    lv: &mut [u32],
    uc: &mut [u32],
    uv: &mut [u32],
    work: &mut [u64],
) -> Step
    requires { RemainderReady q.p r at next total touched.now work.old (entries_at lc.old lv.old uc.old uv.old) }
    ensures { RemainderTaken q.p r at l next total work.old (entries_before lc.old lv.old uc.old uv.old) work.new (entries_after lc.new lv.new uc.new uv.new) result }
{
    let s = settle(q, touched, work);
    let c = s.low;
    if c == work.len() {
        return Step {
            over: false,
            column: c,
            at: at,
            l: l,
            total: total,
        };
    }
    store_settled_pivot(
        q, c, s.count, r, at, next, total, touched, lc, lv, uc, uv, work,
    )
}

// Row i is reduced by r rows of U with `at` entries; what remains gives a pivot row, or the row is dependent.
pub fn take_marked(
    q: Modulus,
    starts: &[u32],
    cols: &[u32],
    vals: &[u32],
    i: usize,
    r: usize,
    at: usize,
    l: usize,
    total: usize,
    co: &[u32],
    us: &[u32],
    place: &[u32],
    lc: &mut [u32],
    lv: &mut [u32],
    uc: &mut [u32],
    uv: &mut [u32],
    work: &mut [u64],
) -> Step
    requires { MarkedReady q.p i r at l total (stored_at starts.now cols.now vals.now) co.now us.now place.now work.old (entries_at lc.old lv.old uc.old uv.old) }
    ensures { RowFound q.p at l total (reduction_by q.p (length work.old) r (front_before r co.now) (cut_before r at us.now uc.old uv.old) (row_before starts.now cols.now vals.now i)) (entries_before lc.old lv.old uc.old uv.old) (entries_after lc.new lv.new uc.new uv.new) work.new result }
{
    let mut touched = [0u8; 129];
    let g = gather_row(
        q,
        starts,
        cols,
        vals,
        i,
        r,
        at,
        co,
        us,
        uc,
        uv,
        place,
        l,
        total,
        &mut touched,
        lc,
        lv,
        work,
    );
    if g.over {
        return Step {
            over: true,
            column: 0,
            at: at,
            l: l,
            total: total,
        };
    }
    let next = g.next;
    let sum = total + (next - l);
    take_remainder(q, r, at, l, next, sum, &touched, lc, lv, uc, uv, work)
}

// A row less multiples of the rows of U, row after row, as `factor_reduce` has it. Pivots at whose columns the row is 0 are passed
// over.
ghost use Rattle.sparse.specs.Matrix.{matrix};
ghost use Rattle.sparse.specs.Views.{stored_at, stored_before};
ghost use Rattle.factor_marked.specs.Marking.{MultipleMarked, PivotMarked, MultiplesMarked};
ghost use Rattle.factor_marked.specs.Needs.{MultipleReady, PivotStepReady, MarkedGatherReady};

use crate::next_pivot::next_pivot;
use crate::noting::note_stored_row;
use factor_reduce::gather::Gathered;
use lists::index;
use residue::Modulus;
use sparse::growing::grow_list_row;

// A multiple that was taken away, and whether all blocks are marked.
#[derive(Clone, Copy)]
struct Multiple {
    x: u32,
    full: bool,
}

// Whether the multiples of a row did not fit, the place after them, and whether all blocks are marked.
#[derive(Clone, Copy)]
struct Progress {
    over: bool,
    next: usize,
    full: bool,
}

// work - x U[k], where x is the residue at column c, at which U[k] is 1. The columns of U[k] are marked first. Cell c is set to
// 0 itself, so that no later pass divides it, and a row of which nothing is to be taken away is not gone through.
fn take_multiple(
    q: Modulus,
    us: &[u32],
    uc: &[u32],
    uv: &[u32],
    k: usize,
    c: usize,
    full: bool,
    place: &[u32],
    touched: &mut [u8],
    pending: &mut [u8],
    work: &mut [u64],
) -> Multiple
    requires { MultipleReady q.p k c (stored_at us.now uc.now uv.now) place.now touched.old pending.old work.old full }
    ensures { MultipleMarked q.p k c (matrix (stored_before us.now uc.now uv.now) k) place.now work.old touched.new pending.new work.new result.x result.full }
{
    let x = q.reduce_cell(work[c]);
    let mut all = full;
    if x != 0 {
        all = note_stored_row(full, us, uc, k, place, touched, pending);
        grow_list_row(q, us, uc, uv, k, x, work);
    }
    work[c] = 0;
    Multiple { x: x, full: all }
}

// Takes the multiple of row k away and stores it at place `at`, unless it is 0 or the places up to `limit` are used up.
fn gather_pivot(
    q: Modulus,
    us: &[u32],
    uc: &[u32],
    uv: &[u32],
    k: usize,
    c: usize,
    at: usize,
    limit: usize,
    full: bool,
    place: &[u32],
    touched: &mut [u8],
    pending: &mut [u8],
    work: &mut [u64],
    lc: &mut [u32],
    lv: &mut [u32],
) -> Progress
    requires { PivotStepReady q.p k c (stored_at us.now uc.now uv.now) at limit place.now touched.old pending.old work.old lc.old lv.old full }
    ensures { PivotMarked q.p k c (matrix (stored_before us.now uc.now uv.now) k) at limit place.now work.old lc.old lv.old touched.new pending.new work.new lc.new lv.new result.over result.next result.full }
{
    let t = take_multiple(q, us, uc, uv, k, c, full, place, touched, pending, work);
    let x = t.x;
    let all = t.full;
    if x == 0 {
        return Progress {
            over: false,
            next: at,
            full: all,
        };
    }
    if at == limit {
        return Progress {
            over: true,
            next: at,
            full: all,
        };
    }
    lc[at] = k as u32;
    lv[at] = x;
    Progress {
        over: false,
        next: at + 1,
        full: all,
    }
}

// Reduces the row that stands in `work` by all rows of U, as many as `co` has pivot columns, and stores the multiples from place
// l on, that of row k at column k. The remainder is left in `work`. U's row k is 0 at the columns of earlier pivots: a mark
// that it sets is still to come.
pub fn gather_marked(
    q: Modulus,
    us: &[u32],
    uc: &[u32],
    uv: &[u32],
    co: &[u32],
    l: usize,
    limit: usize,
    noted: bool,
    place: &[u32],
    touched: &mut [u8],
    pending: &mut [u8],
    work: &mut [u64],
    lc: &mut [u32],
    lv: &mut [u32],
) -> Gathered
    requires { MarkedGatherReady q.p co.now (stored_at us.now uc.now uv.now) l limit place.now touched.old pending.old work.old lc.old lv.old noted }
    ensures { MultiplesMarked q.p co.now (stored_before us.now uc.now uv.now) l limit work.old lc.old lv.old touched.new work.new lc.new lv.new result }
{
    let mut full = noted;
    let mut next = l;
    let mut k = next_pivot(pending, co, work, 0);
    // A while: the next pivot is found by a search, which reads what this turn leaves.
    while k < co.len() {
        let c = index(co[k]);
        let g = gather_pivot(
            q, us, uc, uv, k, c, next, limit, full, place, touched, pending, work, lc, lv,
        );
        if g.over {
            return Gathered {
                over: true,
                next: next,
            };
        }
        next = g.next;
        full = g.full;
        k = next_pivot(pending, co, work, k + 1);
    }
    Gathered {
        over: false,
        next: next,
    }
}

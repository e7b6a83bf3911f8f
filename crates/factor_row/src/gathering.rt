// The row of L of a row of the matrix.
ghost use Rattle.std.specs.Prelude.{length};
ghost use Rattle.sparse.specs.Views.{stored_at, stored_before};
ghost use Rattle.factor_row.specs.Gathering.{reduction_by, RowGathered};
ghost use Rattle.factor_row.specs.Entries.{row_before, front_before, cut_before};
ghost use Rattle.factor_row.specs.Needs.{GatherRowReady, GatherReadyFrom};

use crate::loading::load_row;
use factor_reduce::gather::{Gathered, gather_multiples};
use lists::part;
use residue::Modulus;

// Reduces row i by the rows of U, stores the multiples that were taken away at place l, if they fit after `total` entries, and
// leaves the remainder in the working row. The lists of U and its pivot columns are cut to their lengths.
fn gather_cut(
    q: Modulus,
    starts: &[u32],
    cols: &[u32],
    vals: &[u32],
    i: usize,
    co: &[u32],
    us: &[u32],
    uc: &[u32],
    uv: &[u32],
    l: usize,
    total: usize,
    lc: &mut [u32],
    lv: &mut [u32],
    work: &mut [u64],
) -> Gathered
    requires { GatherRowReady q.p i l total (stored_at starts.now cols.now vals.now) co.now (stored_at us.now uc.now uv.now) work.old lc.old lv.old }
    ensures { RowGathered q.p l total (reduction_by q.p (length work.old) (length co.now) co.now (stored_before us.now uc.now uv.now) (row_before starts.now cols.now vals.now i)) lc.old lv.old lc.new lv.new work.new result }
{
    load_row(starts, cols, vals, i, q.p, work);
    // `total` counts the entries of dependent rows too, which are at the end of the lists: this is where they begin.
    let limit = l + (lc.len() - total);
    gather_multiples(q, us, uc, uv, co, l, limit, work, lc, lv)
}

// The same by r rows of U with `at` entries, whose lists and pivot columns are cut here.
pub fn gather_row(
    q: Modulus,
    starts: &[u32],
    cols: &[u32],
    vals: &[u32],
    i: usize,
    r: usize,
    at: usize,
    co: &[u32],
    us: &[u32],
    uc: &[u32],
    uv: &[u32],
    l: usize,
    total: usize,
    lc: &mut [u32],
    lv: &mut [u32],
    work: &mut [u64],
) -> Gathered
    requires { GatherReadyFrom q.p i r at l total (stored_at starts.now cols.now vals.now) co.now us.now uc.now uv.now work.old lc.old lv.old }
    ensures { RowGathered q.p l total (reduction_by q.p (length work.old) r (front_before r co.now) (cut_before r at us.now uc.now uv.now) (row_before starts.now cols.now vals.now i)) lc.old lv.old lc.new lv.new work.new result }
{
    gather_cut(
        q,
        starts,
        cols,
        vals,
        i,
        part(co, 0, r),
        part(us, 0, r + 1),
        part(uc, 0, at),
        part(uv, 0, at),
        l,
        total,
        lc,
        lv,
        work,
    )
}

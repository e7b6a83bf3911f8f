// The row of L of a row of the matrix, with the blocks marked that it touches.
ghost use Rattle.std.specs.Prelude.{length};
ghost use Rattle.sparse.specs.Views.{stored_at, stored_before};
ghost use Rattle.factor_row.specs.Gathering.{reduction_by};
ghost use Rattle.factor_row.specs.Entries.{row_before, front_before, cut_before};
ghost use Rattle.factor_marked.specs.Marking.{RowMarked};
ghost use Rattle.factor_marked.specs.Needs.{MarkedRowReady, MarkedRowFrom};

use crate::gather::gather_marked;
use crate::noting::note_stored_row;
use factor_reduce::gather::Gathered;
use factor_row::loading::load_row;
use lists::part;
use residue::Modulus;

// Reduces row i by the rows of U, stores the multiples that were taken away at place l, if they fit after `total` entries, and
// leaves the remainder in the working row. The lists of U and its pivot columns are cut to their lengths.
fn gather_cut(
    q: Modulus,
    starts: &[u32],
    cols: &[u32],
    vals: &[u32],
    i: usize,
    co: &[u32],
    us: &[u32],
    uc: &[u32],
    uv: &[u32],
    place: &[u32],
    l: usize,
    total: usize,
    touched: &mut [u8],
    lc: &mut [u32],
    lv: &mut [u32],
    work: &mut [u64],
) -> Gathered
    requires { MarkedRowReady q.p i l total (stored_at starts.now cols.now vals.now) co.now (stored_at us.now uc.now uv.now) place.now touched.old work.old lc.old lv.old }
    ensures { RowMarked q.p l total (reduction_by q.p (length work.old) (length co.now) co.now (stored_before us.now uc.now uv.now) (row_before starts.now cols.now vals.now i)) lc.old lv.old touched.new lc.new lv.new work.new result }
{
    let mut pending = [0u8; 129];
    load_row(starts, cols, vals, i, q.p, work);
    let full = note_stored_row(false, starts, cols, i, place, touched, &mut pending);
    // `total` counts the entries of dependent rows too, which are stored later: their places are not free.
    let limit = l + (lc.len() - total);
    gather_marked(
        q,
        us,
        uc,
        uv,
        co,
        l,
        limit,
        full,
        place,
        touched,
        &mut pending,
        work,
        lc,
        lv,
    )
}

// The same by r rows of U with `at` entries, whose lists and pivot columns are cut here.
pub fn gather_row(
    q: Modulus,
    starts: &[u32],
    cols: &[u32],
    vals: &[u32],
    i: usize,
    r: usize,
    at: usize,
    co: &[u32],
    us: &[u32],
    uc: &[u32],
    uv: &[u32],
    place: &[u32],
    l: usize,
    total: usize,
    touched: &mut [u8],
    lc: &mut [u32],
    lv: &mut [u32],
    work: &mut [u64],
) -> Gathered
    requires { MarkedRowFrom q.p i r at l total (stored_at starts.now cols.now vals.now) co.now us.now uc.now uv.now place.now touched.old work.old lc.old lv.old }
    ensures { RowMarked q.p l total (reduction_by q.p (length work.old) r (front_before r co.now) (cut_before r at us.now uc.now uv.now) (row_before starts.now cols.now vals.now i)) lc.old lv.old touched.new lc.new lv.new work.new result }
{
    gather_cut(
        q,
        starts,
        cols,
        vals,
        i,
        part(co, 0, r),
        part(us, 0, r + 1),
        part(uc, 0, at),
        part(uv, 0, at),
        place,
        l,
        total,
        touched,
        lc,
        lv,
        work,
    )
}

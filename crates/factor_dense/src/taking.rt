// One row that has no structural pivot, taken in the block: what is done in the working row is its reduction by the rows of U
// that the block does not hold.
ghost use Rattle.std.specs.Prelude.{◌≡◌, length};
ghost use Rattle.sparse.specs.Views.{stored_at};
ghost use Rattle.factor_row.specs.Gathering.{reduction_by};
ghost use Rattle.factor_row.specs.Entries.{entries_at, entries_before, entries_after, row_before, front_before, cut_before};
ghost use Rattle.factor_dense.specs.Turn.{dense_step_of, LeftRowFound, LowerFound, UpperFound, DenseTaken};
ghost use Rattle.factor_dense.specs.Needs.{LeftRowReady, DenseLowerReady, DenseUpperReady, DenseReady};

use crate::block::{left_cells, reduce_in_block};
use crate::storing::{first_left, scale_row, store_entry, store_left, store_multiples};
use factor_row::gathering::gather_row;
use factor_row::pivot_row::Step;
use lists::{clear_row, index};
use residue::Modulus;

// Whether the multiples did not fit, the place after them, and the cells that are left of the row.
#[derive(Drop)]
pub struct LeftRow {
    pub over: bool,
    pub next: usize,
    pub row: [u64; 32],
}

// What a turn came to, and where it found a pivot: the place of its column, and the row that the block gets.
#[derive(Drop)]
pub struct DenseStep {
    pub step: Step,
    pub place: u32,
    pub row: [u32; 32],
}

// Reduces row i by the first s rows of U, which have `first` entries, and stores the multiples from place l on. What is left at
// the columns js is copied, and the working row cleared.
fn reduce_left(
    q: Modulus,
    starts: &[u32],
    cols: &[u32],
    vals: &[u32],
    i: usize,
    s: usize,
    first: usize,
    co: &[u32],
    us: &[u32],
    uc: &[u32],
    uv: &[u32],
    js: [u32; 32],
    width: usize,
    l: usize,
    total: usize,
    lc: &mut [u32],
    lv: &mut [u32],
    work: &mut [u64],
) -> LeftRow
    requires { LeftRowReady q.p i s first l total (stored_at starts.now cols.now vals.now) co.now us.now uc.now uv.now js width work.old lc.old lv.old }
    ensures { LeftRowFound q.p l total (reduction_by q.p (length work.old) s (front_before s co.now) (cut_before s first us.now uc.now uv.now) (row_before starts.now cols.now vals.now i)) width js lc.old lv.old lc.new lv.new work.new result }
{
    let g = gather_row(
        q, starts, cols, vals, i, s, first, co, us, uc, uv, l, total, lc, lv, work,
    );
    let row = left_cells(js, width, work);
    clear_row(work);
    LeftRow {
        over: g.over,
        next: g.next,
        row: row,
    }
}

// Reduces the cells by the first b rows of the block and stores the multiples, that of block row t at column s + t of L.
fn lower_left(
    q: Modulus,
    block: &[[u32; 32]; 32],
    ks: &[u32; 32],
    s: usize,
    b: usize,
    row: [u64; 32],
    next: usize,
    limit: usize,
    lc: &mut [u32],
    lv: &mut [u32],
) -> LeftRow
    requires { DenseLowerReady q.p s b next limit ks.now block.now row lc.old lv.old }
    ensures { LowerFound q.p s b next limit ks.now block.now row lc.old lv.old lc.new lv.new result }
{
    let done = reduce_in_block(q, block, ks, b, row);
    let xs = done.multiples;
    let rest = done.row;
    let g = store_multiples(xs, b, s, next, limit, lc, lv);
    LeftRow {
        over: g.over,
        next: g.next,
        row: rest,
    }
}

// What a turn came to, from its parts.
fn dense_step(
    over: bool,
    column: usize,
    at: usize,
    l: usize,
    total: usize,
    place: u32,
    row: [u32; 32],
) -> DenseStep
    ensures { result ≡ dense_step_of over column at l total place row }
{
    DenseStep {
        step: Step {
            over: over,
            column: column,
            at: at,
            l: l,
            total: total,
        },
        place: place,
        row: row,
    }
}

// Stores the cells, divided by their value at place k, as row r of U, and that value as an entry of L, if they fit; L has `sum`
// entries so far.
fn upper_left(
    q: Modulus,
    r: usize,
    k: usize,
    at: usize,
    next: usize,
    limit: usize,
    sum: usize,
    js: [u32; 32],
    width: usize,
    row: [u64; 32],
    lc: &mut [u32],
    lv: &mut [u32],
    uc: &mut [u32],
    uv: &mut [u32],
) -> DenseStep
    requires { DenseUpperReady q.p r k at next limit sum width js row (entries_at lc.old lv.old uc.old uv.old) }
    ensures { UpperFound q.p r k at next limit sum width js row (entries_before lc.old lv.old uc.old uv.old) (entries_after lc.new lv.new uc.new uv.new) result }
{
    let v = q.reduce_cell(row[k]);
    let new = scale_row(q, q.invert(v), row);
    let c = index(js[k]);
    let all = sum + 1;
    let place = k as u32;
    let e = store_entry(r, v, next, limit, lc, lv);
    let l = e.next;
    if e.over {
        return dense_step(true, c, at, l, all, place, new);
    }
    let u = store_left(js, new, width, at, uc.len(), uc, uv);
    dense_step(u.over, c, u.next, l, all, place, new)
}

// Row i is reduced by r rows of U, of which the block holds those after the first s; what remains gives a pivot row, or the row is
// dependent.
pub fn take_dense(
    q: Modulus,
    starts: &[u32],
    cols: &[u32],
    vals: &[u32],
    i: usize,
    s: usize,
    first: usize,
    r: usize,
    at: usize,
    l: usize,
    total: usize,
    co: &[u32],
    us: &[u32],
    js: [u32; 32],
    width: usize,
    ks: &[u32; 32],
    block: &[[u32; 32]; 32],
    lc: &mut [u32],
    lv: &mut [u32],
    uc: &mut [u32],
    uv: &mut [u32],
    work: &mut [u64],
) -> DenseStep
    requires { DenseReady q.p i s first r at l total (stored_at starts.now cols.now vals.now) co.now us.now js width ks.now block.now work.old (entries_at lc.old lv.old uc.old uv.old) }
    ensures { DenseTaken q.p at l total (reduction_by q.p (length work.old) r (front_before r co.now) (cut_before r at us.now uc.old uv.old) (row_before starts.now cols.now vals.now i)) width js (entries_before lc.old lv.old uc.old uv.old) (entries_after lc.new lv.new uc.new uv.new) work.new result }
{
    let left = reduce_left(
        q, starts, cols, vals, i, s, first, co, us, uc, uv, js, width, l, total, lc, lv, work,
    );
    let none = [0u32; 32];
    let start = left.row;
    if left.over {
        return dense_step(true, 0, at, l, total, 0, none);
    }
    // `total` counts the entries of dependent rows too, which are at the end of the lists: this is where they begin.
    let end = l + (lc.len() - total);
    let d = lower_left(q, block, ks, s, r - s, start, left.next, end, lc, lv);
    let rest = d.row;
    let next = d.next;
    if d.over {
        return dense_step(true, 0, at, l, total, 0, none);
    }
    let sum = total + (next - l);
    let k = first_left(q, rest);
    if k == 32 {
        return dense_step(false, work.len(), at, l, sum, 0, none);
    }
    upper_left(q, r, k, at, next, end, sum, js, width, rest, lc, lv, uc, uv)
}

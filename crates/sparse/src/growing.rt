// Multiples of stored rows taken away from a working row whose cells may grow. Where p is below 2 ^ 16, a row is added p - c
// times, with no cell tested: as one run where its columns are neighbours, else entry by entry where all its numbers stand in
// lists or all in bytes. Any other row is taken away as in `kernel`.
ghost use Rattle.std.specs.Prelude.{◌≡◌, true, ◌*◌};
ghost use Rattle.sparse.specs.Row.{entry};
ghost use Rattle.sparse.specs.Matrix.{matrix};
ghost use Rattle.sparse.specs.WorkingRow.{GrownBy, growth, GrowReady, GrowMatrixReady};
ghost use Rattle.sparse.specs.Run.{AddReady, RowAdded, Neighbours, RunReady, Added, FromReady, AddedFrom};
ghost use Rattle.sparse.specs.Views.{stored_at, stored_before};

use crate::kernel::{product, subtract_numbers};
use crate::stored::{Compressed, SparseRow};
use crate::words::Numbers;
use lists::{index, part};
use residue::Modulus;

// work + d vals, cell by cell: the compiler adds to several cells at once where the values stand in a list.
fn add_run<N: Numbers>(d: u32, vals: &N, work: &mut [u64])
    requires { RunReady d (N.numbers vals.now) work.old }
    ensures { Added d (N.numbers vals.now) work.old work.new }
{
    for t in 0..work.len() {
        work[t] = work[t] + product(d, vals.number(t));
    }
}

// work + d vals, from cell `first` on.
pub fn add_from(d: u32, first: usize, vals: &[u32], work: &mut [u64])
    requires { FromReady d first vals.now work.old }
    ensures { AddedFrom d first vals.now work.old work.new }
{
    let end = first + vals.len();
    let cells = &mut work[first..end];
    add_run(d, &vals, cells);
}

// work + d row, entry by entry: no cell is tested, since there is room.
fn add_entries<N: Numbers>(d: u32, cols: &N, vals: &N, work: &mut [u64])
    requires { AddReady d (N.numbers cols.now) (N.numbers vals.now) work.old }
    ensures { RowAdded d (N.numbers cols.now) (N.numbers vals.now) work.old work.new }
{
    for t in 0..cols.count() {
        let j = index(cols.number(t));
        let v = vals.number(t);
        work[j] = work[j] + product(d, v);
    }
}

// Whether the cells may grow, and the row has 8 entries or more and no column is left out between its first and its last.
fn is_run<N: Numbers>(q: Modulus, cols: &N) -> bool
    ensures { result ≡ true → Neighbours q.p (N.numbers cols.now) }
{
    let n = cols.count();
    if 65535 < q.p || n < 8 {
        return false;
    }
    let first = index(cols.number(0));
    let last = index(cols.number(n - 1));
    if last < first {
        return false;
    }
    last - first == n - 1
}

// work - c row, where the row's columns are neighbours: p - c times its values are added from the first column on.
fn grow_run<N: Numbers>(q: Modulus, cols: &N, vals: &N, c: u32, work: &mut [u64])
    requires { GrowReady q.p c (N.numbers cols.now) (N.numbers vals.now) work.old × Neighbours q.p (N.numbers cols.now) }
    ensures { GrownBy q.p (growth q.p) (λ j. c * entry (N.numbers cols.now) (N.numbers vals.now) j) work.old work.new }
{
    let first = index(cols.number(0));
    let end = first + cols.count();
    let cells = &mut work[first..end];
    add_run(q.p - c, vals, cells);
}

// work - c row, where the row is given by its columns and values, wherever these stand.
fn grow_numbers<N: Numbers>(q: Modulus, cols: &N, vals: &N, c: u32, work: &mut [u64])
    requires { GrowReady q.p c (N.numbers cols.now) (N.numbers vals.now) work.old }
    ensures { GrownBy q.p (growth q.p) (λ j. c * entry (N.numbers cols.now) (N.numbers vals.now) j) work.old work.new }
{
    if is_run(q, cols) {
        grow_run(q, cols, vals, c, work);
        return;
    }
    if q.p <= 65535 {
        add_entries(q.p - c, cols, vals, work);
        return;
    }
    subtract_numbers(q, cols, vals, c, work);
}

// work - c row, by a loop that asks of no number where it stands, where all stand in lists or all in bytes.
pub fn grow(q: Modulus, row: &SparseRow, c: u32, work: &mut [u64])
    requires { GrowReady q.p c row.now.cols row.now.vals work.old }
    ensures { GrownBy q.p (growth q.p) (λ j. c * entry row.now.cols row.now.vals j) work.old work.new }
{
    if let (Some(cols), Some(vals)) = (row.cols.as_list(), row.vals.as_list()) {
        grow_numbers(q, &cols, &vals, c, work);
        return;
    }
    if let (Some(cols), Some(vals)) = (row.cols.as_held(), row.vals.as_held()) {
        grow_numbers(q, &cols, &vals, c, work);
        return;
    }
    grow_numbers(q, &row.cols, &row.vals, c, work);
}

// work - c M[k], where M is a stored matrix.
pub fn grow_row(q: Modulus, rows: &Compressed, k: usize, c: u32, work: &mut [u64])
    requires { GrowMatrixReady q.p k c rows.now work.old }
    ensures { GrownBy q.p (growth q.p) (λ j. c * matrix rows.now k j) work.old work.new }
{
    grow(q, &rows.row(k), c, work);
}

// work - c M[k], where M is a matrix in stored lists.
pub fn grow_list_row(
    q: Modulus,
    starts: &[u32],
    cols: &[u32],
    vals: &[u32],
    k: usize,
    c: u32,
    work: &mut [u64],
)
    requires { GrowMatrixReady q.p k c (stored_at starts.now cols.now vals.now) work.old }
    ensures { GrownBy q.p (growth q.p) (λ j. c * matrix (stored_before starts.now cols.now vals.now) k j) work.old work.new }
{
    let a = index(starts[k]);
    let e = index(starts[k + 1]);
    grow_numbers(q, &part(cols, a, e), &part(vals, a, e), c, work);
}

// Multiples of stored rows taken away from the working row, with no division in the loop.
ghost use Rattle.std.specs.Prelude.{◌≡◌, ◌*◌, ◌<◌};
ghost use Rattle.residue.specs.Arithmetic.{Residues};
ghost use Rattle.sparse.specs.Row.{entry};
ghost use Rattle.sparse.specs.Matrix.{matrix};
ghost use Rattle.sparse.specs.WorkingRow.{Lessened, Lowered, Subtracted, GrownBy, RowReady, MatrixReady};
ghost use Rattle.sparse.specs.Views.{stored_at, stored_before};

use crate::stored::{Compressed, SparseRow};
use crate::words::Numbers;
use lists::{index, part};
use residue::Modulus;

// a b, not reduced.
pub fn product(a: u32, b: u32) -> u64
    ensures { result ≡ a * b }
{
    a as u64 * b as u64
}

// The cell x less c v: p * p more where x is less than c v, so that it is never reduced here.
fn less(q: Modulus, x: u64, c: u32, v: u32) -> u64
    requires { Residues q.p c v }
    ensures { Lowered q.p (c * v) x result }
{
    let square = product(q.p, q.p);
    let u = product(c, v);
    if u <= x { x - u } else { x + (square - u) }
}

// The same for a cell below p * p, which it stays.
pub fn minus(q: Modulus, x: u64, c: u32, v: u32) -> u64
    requires { (x < q.p * q.p) × Residues q.p c v }
    ensures { Lessened q.p (c * v) x result }
{
    less(q, x, c, v)
}

// work - c row, where the row is given by its columns and values, wherever these stand.
pub fn subtract_numbers<N: Numbers>(q: Modulus, cols: &N, vals: &N, c: u32, work: &mut [u64])
    requires { RowReady q.p c (N.numbers cols.now) (N.numbers vals.now) work.old }
    ensures { GrownBy q.p 0 (λ j. c * entry (N.numbers cols.now) (N.numbers vals.now) j) work.old work.new }
{
    for t in 0..cols.count() {
        let j = index(cols.number(t));
        let v = vals.number(t);
        work[j] = less(q, work[j], c, v);
    }
}

// work - c row, where the row is given by stored lists.
pub fn subtract_list(q: Modulus, cols: &[u32], vals: &[u32], c: u32, work: &mut [u64])
    requires { RowReady q.p c cols.now vals.now work.old }
    ensures { GrownBy q.p 0 (λ j. c * entry cols.now vals.now j) work.old work.new }
{
    subtract_numbers(q, &cols, &vals, c, work);
}

// work - c row, by a loop that asks of no number where it stands, where all stand in lists or all in bytes.
pub fn subtract(q: Modulus, row: &SparseRow, c: u32, work: &mut [u64])
    requires { RowReady q.p c row.now.cols row.now.vals work.old }
    ensures { GrownBy q.p 0 (λ j. c * entry row.now.cols row.now.vals j) work.old work.new }
{
    if let (Some(cols), Some(vals)) = (row.cols.as_list(), row.vals.as_list()) {
        subtract_numbers(q, &cols, &vals, c, work);
        return;
    }
    if let (Some(cols), Some(vals)) = (row.cols.as_held(), row.vals.as_held()) {
        subtract_numbers(q, &cols, &vals, c, work);
        return;
    }
    subtract_numbers(q, &row.cols, &row.vals, c, work);
}

// work - c M[k], where M is a stored matrix.
pub fn subtract_row(q: Modulus, rows: &Compressed, k: usize, c: u32, work: &mut [u64])
    requires { MatrixReady q.p k c rows.now work.old }
    ensures { Subtracted q.p (λ j. c * matrix rows.now k j) work.old work.new }
{
    subtract(q, &rows.row(k), c, work);
}

// work - c M[k], where M is a matrix in stored lists.
pub fn subtract_list_row(
    q: Modulus,
    starts: &[u32],
    cols: &[u32],
    vals: &[u32],
    k: usize,
    c: u32,
    work: &mut [u64],
)
    requires { MatrixReady q.p k c (stored_at starts.now cols.now vals.now) work.old }
    ensures { Subtracted q.p (λ j. c * matrix (stored_before starts.now cols.now vals.now) k j) work.old work.new }
{
    let a = index(starts[k]);
    let e = index(starts[k + 1]);
    subtract_list(q, part(cols, a, e), part(vals, a, e), c, work);
}

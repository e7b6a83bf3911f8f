// The shape of U: the pivot columns of the rows gone through are marked in the working row.
ghost use Rattle.std.specs.Prelude.{◌≡◌, ◌&&◌, ℕ, ◌≤◌, ◌<◌, eqb, length, get_or};
ghost use Rattle.std.proofs.Math.Seq.{slice};
ghost use Rattle.algebra.specs.Matrix.{vector};
ghost use Rattle.sparse.specs.Row.{entry, Row};
ghost use Rattle.sparse.specs.Matrix.{matrix, row_of};
ghost use Rattle.pluq.specs.Shape.{upper};
ghost use Rattle.check_shape.specs.Needs.{clean, AtRow, ColumnsTestable};

use lists::{clear_row, index};
use sparse::stored::Compressed;
use sparse::words::Words;

// Whether the cells of the columns from place a up to place e are all 0.
fn unmarked(cols: &Words, a: usize, e: usize, work: &mut [u64]) -> bool
    requires { (a ≤ e) × (e ≤ length cols.now) × ((t : ℕ) → a ≤ t → t < e → get_or cols.now t 0 < length work.old) }
    ensures { (result ≡ clean work.old (slice a e cols.now)) × (work.new ≡ work.old) }
{
    for i in a..e {
        let c = index(cols.at(i));
        if work[c] != 0 {
            return false;
        }
    }
    true
}

// The value stored at column j from place a up to place e, or 0.
fn value_at(u: &Compressed, p: u32, width: usize, a: usize, e: usize, j: u32) -> u32
    requires { (a ≤ e) × (e ≤ length u.now.cols) × (e ≤ length u.now.vals) × Row p width (slice a e u.now.cols) (slice a e u.now.vals) }
    ensures { result ≡ entry (slice a e u.now.cols) (slice a e u.now.vals) j }
{
    for i in a..e {
        if u.cols.at(i) == j {
            return u.vals.at(i);
        }
    }
    0
}

// Whether row k has 1 at column j and nothing at the marked columns.
fn unit_row(u: &Compressed, p: u32, k: usize, j: u32, work: &mut [u64]) -> bool
    requires { AtRow p k u.now work.old }
    ensures { (result ≡ (clean work.old (row_of u.now.starts k u.now.cols) && eqb (matrix u.now k j) 1)) × (work.new ≡ work.old) }
{
    let a = index(u.starts.at(k));
    let e = index(u.starts.at(k + 1));
    let width = work.len();
    if !unmarked(&u.cols, a, e, work) {
        return false;
    }
    value_at(u, p, width, a, e, j) == 1
}

// Whether U has its shape; marks the columns of the rows gone through.
fn upper_rows(u: &Compressed, co: &Words, p: u32, r: usize, work: &mut [u64]) -> bool
    requires { ColumnsTestable p r u.now co.now work.old }
    ensures { (result ≡ upper r (vector co.now) (matrix u.now)) × (length work.new ≡ length work.old) }
{
    for k in 0..r {
        let j = co.at(k);
        if !unit_row(u, p, k, j, work) {
            return false;
        }
        let c = index(j);
        work[c] = 1;
    }
    true
}

// Whether U has its shape; the working row is all zero before and after.
pub fn upper_ok(u: &Compressed, co: &Words, p: u32, r: usize, work: &mut [u64]) -> bool
    requires { ColumnsTestable p r u.now co.now work.old }
    ensures { (result ≡ upper r (vector co.now) (matrix u.now)) × (work.new ≡ work.old) }
{
    let ok = upper_rows(u, co, p, r, work);
    clear_row(work);
    ok
}

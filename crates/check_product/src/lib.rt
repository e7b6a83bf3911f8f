// The product of a set compared with the matrix (refusal 14), row by row: in the lists where the row is
// one row of U times a number, else in the working row.
#![tactic(auto)]

ghost use Rattle.std.specs.Prelude.{◌≡◌, ◌+◌, ◌*◌, ◌<◌, length, get_or};
ghost use Rattle.lists.specs.Filled.{zeros};
ghost use Rattle.lists.specs.Tests.{first};
ghost use Rattle.sparse.specs.Row.{weigh};
ghost use Rattle.sparse.specs.Matrix.{matrix};
ghost use Rattle.sparse.specs.WorkingRow.{SubtractedTo, growth};
ghost use Rattle.algebra.specs.Matrix.{vector};
ghost use Rattle.pluq.specs.Judge.{agrees};
ghost use Rattle.check_product.specs.Combination.{is_combination};
ghost use Rattle.check_product.specs.Needs.{CombinesRows, ComparesRow, Comparable};

mod copied;
mod sweep;

use crate::copied::is_copied;
use crate::sweep::clear_touched;
use lists::index;
use residue::Modulus;
use sparse::growing::grow_row;
use sparse::kernel::subtract_row;
use sparse::stored::{Compressed, SparseRow};
use sparse::words::Words;

// The number at place t of a list, as an index.
fn index_at(list: &Words, t: usize) -> usize
    requires { t < length list.now }
    ensures { result ≡ get_or list.now t 0 }
{
    index(list.at(t))
}

// Takes the rows of U away, each as often as the sparse row says. Each may add to the bound of the cells.
fn subtract_rows(q: Modulus, row: &SparseRow, u: &Compressed, r: usize, work: &mut [u64])
    requires { CombinesRows q.p r row.now.cols row.now.vals u.now work.old }
    ensures { SubtractedTo q.p (q.p * q.p + length row.now.cols * growth q.p) (λ j. weigh row.now.cols row.now.vals (λ k. matrix u.now k j)) work.old work.new }
{
    for t in 0..row.cols.len() {
        let k = index_at(&row.cols, t);
        let v = row.vals.at(t);
        grow_row(q, u, k, v, work);
    }
}

// Whether the working row is the sum of the rows of U, each as often as a row of L says: at all columns, modulo p. Only
// cells at the given columns may be other than 0; after it all are 0. The rows are parts of the lists of A and of L.
fn is_combination(
    q: Modulus,
    cols: &Words,
    row: &SparseRow,
    u: &Compressed,
    r: usize,
    work: &mut [u64],
) -> bool
    requires { ComparesRow q.p r cols.now row.now.cols row.now.vals u.now work.old }
    ensures { (result ≡ is_combination q.p work.old row.now.cols row.now.vals (matrix u.now)) × (work.new ≡ zeros (length work.old)) }
{
    subtract_rows(q, row, u, r, work);
    clear_touched(q, cols, &row.cols, u, work)
}

// Whether row R[i] of A is row i of the product, at all columns, in the working row. A's row is put there:
// taken away p - 1 times it is added once.
fn row_combines(
    q: Modulus,
    plan: &Compressed,
    ro: &Words,
    l: &Compressed,
    u: &Compressed,
    r: usize,
    n: usize,
    i: usize,
    work: &mut [u64],
) -> bool
    requires { (i < n) × Comparable q.p n r plan.now ro.now l.now u.now work.old }
    ensures { (result ≡ agrees q.p (length work.old) r (matrix plan.now) (vector ro.now) (matrix l.now) (matrix u.now) i) × (work.new ≡ work.old) }
{
    let k = index_at(ro, i);
    subtract_row(q, plan, k, q.p - 1, work);
    is_combination(q, &plan.row(k).cols, &l.row(i), u, r, work)
}

// Whether row R[i] of A is row i of the product, at all columns. Where it is seen to be a multiple of one row of U, nothing
// is put into the working row.
fn row_agrees(
    q: Modulus,
    plan: &Compressed,
    ro: &Words,
    l: &Compressed,
    u: &Compressed,
    r: usize,
    n: usize,
    i: usize,
    work: &mut [u64],
) -> bool
    requires { (i < n) × Comparable q.p n r plan.now ro.now l.now u.now work.old }
    ensures { (result ≡ agrees q.p (length work.old) r (matrix plan.now) (vector ro.now) (matrix l.now) (matrix u.now) i) × (work.new ≡ work.old) }
{
    if is_copied(q, plan, ro, l, u, r, i) {
        return true;
    }
    row_combines(q, plan, ro, l, u, r, n, i, work)
}

// The first position whose row differs from the product's, or n. A hint puts it into its caller: where that has made all lists
// of stored ones, the compiler knows that no bytes are there, and no loop asks of a number where it stands.
#[inline(always)]
pub fn first_differing(
    q: Modulus,
    plan: &Compressed,
    ro: &Words,
    l: &Compressed,
    u: &Compressed,
    r: usize,
    n: usize,
    work: &mut [u64],
) -> usize
    requires { Comparable q.p n r plan.now ro.now l.now u.now work.old }
    ensures { (result ≡ first n (agrees q.p (length work.old) r (matrix plan.now) (vector ro.now) (matrix l.now) (matrix u.now))) × (work.new ≡ work.old) }
{
    for i in 0..n {
        if !row_agrees(q, plan, ro, l, u, r, n, i, work) {
            return i;
        }
    }
    n
}

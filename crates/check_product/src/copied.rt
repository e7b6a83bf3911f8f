// Rows of A that are multiples of one row of U, seen in the lists: no working row is filled or cleared for them.
ghost use Rattle.std.specs.Prelude.{◌≡◌, true, ℕ};
ghost use Rattle.sparse.specs.Matrix.{matrix};
ghost use Rattle.algebra.specs.Matrix.{vector};
ghost use Rattle.pluq.specs.Judge.{agrees};
ghost use Rattle.check_product.specs.Combination.{MultipleOf};
ghost use Rattle.check_product.specs.Needs.{ComparesMultiple, NamesRows};

use crate::index_at;
use crate::sweep::row_length;
use residue::Modulus;
use sparse::stored::{Compressed, SparseRow};
use sparse::words::Words;

// Whether a sparse row is c times another one, entry by entry. Where it says no, nothing is known.
fn is_multiple(q: Modulus, row: &SparseRow, of: &SparseRow, c: u32) -> bool
    requires { ComparesMultiple q.p c row.now.cols row.now.vals of.now.cols of.now.vals }
    ensures { result ≡ true → MultipleOf q.p c row.now.cols row.now.vals of.now.cols of.now.vals }
{
    if of.cols.len() != row.cols.len() {
        return false;
    }
    for t in 0..row.cols.len() {
        if of.cols.at(t) != row.cols.at(t) {
            return false;
        }
        if q.multiply(c, of.vals.at(t)) != row.vals.at(t) {
            return false;
        }
    }
    true
}

// Whether row i of L has one entry and row R[i] of A is that multiple of the row of U that it names. Where it says no,
// nothing is known.
pub fn is_copied(
    q: Modulus,
    plan: &Compressed,
    ro: &Words,
    l: &Compressed,
    u: &Compressed,
    r: usize,
    i: usize,
) -> bool
    requires { NamesRows q.p r i plan.now ro.now l.now u.now }
    ensures { result ≡ true → (m : ℕ) → agrees q.p m r (matrix plan.now) (vector ro.now) (matrix l.now) (matrix u.now) i ≡ true }
{
    if row_length(&l.starts, i) != 1 {
        return false;
    }
    let at = index_at(&l.starts, i);
    let k = index_at(ro, i);
    let named = index_at(&l.cols, at);
    is_multiple(q, &plan.row(k), &u.row(named), l.vals.at(at))
}

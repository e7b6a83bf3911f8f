// x by substitution through L, from its last pivot row up.
ghost use Rattle.std.specs.Prelude.{length};
ghost use Rattle.residue.specs.Arithmetic.{Residue};
ghost use Rattle.residue.specs.Inverse.{inv_mod};
ghost use Rattle.algebra.specs.Matrix.{vector};
ghost use Rattle.sparse.specs.Matrix.{matrix};
ghost use Rattle.row_space.specs.Substitution.{through_l};
ghost use Rattle.row_space.specs.Solving.{residues, QuotientTaken, Placed};
ghost use Rattle.row_space.specs.Needs.{DiagonalReady, LowerRowReady, LowerOrder};

use lists::{clear_row, index};
use residue::Modulus;
use sparse::kernel::subtract_row;
use sparse::stored::Compressed;
use sparse::words::Words;

// One divided by the diagonal entry of row k, which is the row's last entry.
pub fn inverse_diagonal(q: Modulus, l: &Compressed, k: usize) -> u32
    requires { DiagonalReady q.p k l.now }
    ensures { Residue q.p (inv_mod q.p (matrix l.now k k)) result }
{
    let e = index(l.starts.after(k));
    q.invert(l.vals.at(e - 1))
}

// The value of row k: what the working row has at k, divided by the row's diagonal entry. The row is taken away so often.
fn take_quotient(q: Modulus, l: &Compressed, k: usize, work: &mut [u64]) -> u32
    requires { LowerRowReady q.p k l.now work.old }
    ensures { QuotientTaken q.p l.now k work.old work.new result }
{
    let d = q.reduce(work[k]);
    let a = inverse_diagonal(q, l, k);
    let v = q.multiply(d, a);
    subtract_row(q, l, k, v, work);
    v
}

// v L = d, where d stands in the working row: each value of v goes to the place in x that R gives its row.
pub fn solve_lower(q: Modulus, l: &Compressed, ro: &Words, x: &mut [u32], work: &mut [u64])
    requires { LowerOrder q.p l.now ro.now work.old x.old }
    ensures { Placed (through_l q.p (length x.old) (length work.old) (vector ro.now) (matrix l.now) (residues q.p work.old)) x.new work.new }
{
    for k in (0..work.len()).rev() {
        let t = index(ro.at(k));
        x[t] = take_quotient(q, l, k, work);
    }
    clear_row(work);
}

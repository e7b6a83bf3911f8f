// The unit question of a pivot column, answered by reduction.
ghost use Rattle.std.specs.Prelude.{length, get_or};
ghost use Rattle.algebra.specs.Matrix.{vector};
ghost use Rattle.sparse.specs.Matrix.{matrix};
ghost use Rattle.answer_open.specs.Opening.{open_cell, ReducesOn, PivotCell};
ghost use Rattle.answer_open.specs.Needs.{ReduceFromReady, UnitReady};

use answer_question::reduce::{lowest_nonzero, reduce_by_row};
use lists::{clear_row, index};
use residue::Modulus;
use sparse::stored::Compressed;
use sparse::words::Words;

// Reduces the working row by rows k to r - 1 of U.
fn reduce_from(q: Modulus, u: &Compressed, co: &Words, k: usize, r: usize, work: &mut [u64])
    requires { ReduceFromReady q.p k r u.now co.now work.old }
    ensures { ReducesOn q.p (vector co.now) (matrix u.now) k r work.old work.new }
{
    for i in k..r {
        let c = index(co.at(i));
        reduce_by_row(q, u, i, c, work);
    }
}

// 1 where the unit question of row k's pivot column is open, else 0. The rows before row k do not change it.
pub fn unit_open(
    q: Modulus,
    u: &Compressed,
    co: &Words,
    k: usize,
    r: usize,
    work: &mut [u64],
) -> u32
    requires { UnitReady q.p k r u.now co.now work.old }
    ensures { PivotCell (open_cell q.p (length work.old) (vector co.now) (matrix u.now) r (get_or co.now k 0)) result work.new }
{
    let m = work.len();
    let j = index(co.at(k));
    work[j] = 1;
    reduce_from(q, u, co, k, r, work);
    let low = lowest_nonzero(q, work);
    clear_row(work);
    if low < m {
        return 0;
    }
    1
}

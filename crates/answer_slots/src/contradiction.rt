// w with w A = 0, from the slot that contradicts the pivot rows.
ghost use Rattle.std.specs.Prelude.{length};
ghost use Rattle.algebra.specs.Matrix.{vector};
ghost use Rattle.sparse.specs.Matrix.{matrix};
ghost use Rattle.answer_slots.specs.Solving.{left_kernel_from, Contradicted};
ghost use Rattle.answer_slots.specs.Needs.{ContradictReady};

use lists::index;
use residue::Modulus;
use row_space::lower::solve_lower;
use sparse::kernel::subtract_row;
use sparse::stored::Compressed;
use sparse::words::Words;

// v L = - L[i], each value of v at its pivot row, and 1 at the slot at position i.
pub fn contradict(q: Modulus, l: &Compressed, ro: &Words, i: usize, w: &mut [u32], work: &mut [u64])
    requires { ContradictReady q.p i l.now ro.now w.old work.old }
    ensures { Contradicted (left_kernel_from q.p (length w.old) (length work.old) (vector ro.now) (matrix l.now) i) w.new work.new }
{
    subtract_row(q, l, i, 1, work);
    solve_lower(q, l, ro, w, work);
    let slot = index(ro.at(i));
    w[slot] = 1;
}

// The answer to a question from a set that passed, in place in the lent lists x and z.
ghost use Rattle.std.specs.Prelude.{◌≡◌, length};
ghost use Rattle.algebra.specs.Sum.{δ};
ghost use Rattle.algebra.specs.Matrix.{vector};
ghost use Rattle.sparse.specs.Matrix.{matrix};
ghost use Rattle.sparse.specs.Views.{set_in};
ghost use Rattle.row_space.specs.Substitution.{through_l, through_u};
ghost use Rattle.row_space.specs.Solving.{residues};
ghost use Rattle.row_space.specs.Solve.{solve};
ghost use Rattle.answer_question.specs.Needs.{OpenReady, ClosedReady, AnswerReady};
ghost use Rattle.answer_question.specs.Answering.{Opened, ClosedAs, Answered};

use crate::reduce::{load, reduce_question};
use lists::clear;
use residue::Modulus;
use row_space::Verdict;
use row_space::lower::solve_lower;
use row_space::upper::solve_upper;
use sparse::set::Factors;
use sparse::stored::Compressed;
use sparse::words::Words;

// Open: x from the multiples that stand in z, which is cleared.
pub fn open_answer(
    q: Modulus,
    l: &Compressed,
    ro: &Words,
    x: &mut [u32],
    z: &mut [u32],
    work: &mut [u64],
)
    requires { OpenReady q.p l.now ro.now x.old z.old work.old }
    ensures { Opened (through_l q.p (length x.old) (length work.old) (vector ro.now) (matrix l.now) (residues q.p z.old)) x.new z.new work.new }
{
    load(z, work);
    clear(x);
    solve_lower(q, l, ro, x, work);
    clear(z); // the multiples are not needed any more
}

// z with A z = 0 from its one at the column j, 0 at the other columns that are no pivot columns.
pub fn kernel_vector(q: Modulus, u: &Compressed, co: &Words, r: usize, j: usize, z: &mut [u32])
    requires { ClosedReady q.p r j u.now co.now z.old }
    ensures { z.new ≡ through_u q.p (length z.old) r (vector co.now) (matrix u.now) (δ j) }
{
    clear(z);
    z[j] = 1;
    solve_upper(q, u, co, r, z);
}

// Closed: z from its one at the column j.
pub fn closed_answer(
    q: Modulus,
    u: &Compressed,
    co: &Words,
    r: usize,
    j: usize,
    x: &mut [u32],
    z: &mut [u32],
)
    requires { ClosedReady q.p r j u.now co.now z.old }
    ensures { ClosedAs (through_u q.p (length z.old) r (vector co.now) (matrix u.now) (δ j)) x.new z.new }
{
    clear(x);
    kernel_vector(q, u, co, r, j, z);
}

// The verdict on the question y, and its x or z.
pub fn answer(
    q: Modulus,
    f: &Factors,
    y: &[u32],
    x: &mut [u32],
    z: &mut [u32],
    work: &mut [u64],
) -> Verdict
    requires { AnswerReady q.p (set_in f.now) y.now x.old z.old work.old }
    ensures { Answered (solve q.p (length x.old) (length z.old) (set_in f.now) (vector y.now)) result x.new z.new work.new }
{
    let m = z.len();
    let r = f.r as usize;
    let j = reduce_question(q, &f.u, &f.co, r, y, z, &mut work[..m]);
    if j < m {
        closed_answer(q, &f.u, &f.co, r, j, x, z);
        return Verdict::Closed;
    }
    open_answer(q, &f.l, &f.ro, x, z, &mut work[..r]);
    Verdict::Open
}

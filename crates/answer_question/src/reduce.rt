// The reduction of a question by the rows of U, in order, in the working row.
ghost use Rattle.std.specs.Prelude.{◌≡◌, ◌%◌, ◌≤◌, ◌<◌, length, get_or, take};
ghost use Rattle.algebra.specs.Matrix.{vector};
ghost use Rattle.sparse.specs.Matrix.{matrix};
ghost use Rattle.answer_question.specs.Needs.{EliminationReady, MultiplesReady, QuestionReady};
ghost use Rattle.answer_question.specs.Reducing.{Eliminated, Reduced, QuestionReduced};
ghost use Rattle.row_space.specs.Solve.{lowest_of};

use lists::{clear_row, index};
use residue::Modulus;
use sparse::dense::first_nonzero;
use sparse::kernel::subtract_row;
use sparse::stored::Compressed;
use sparse::words::Words;

// Fills the working row with the first numbers of a list.
pub fn load(list: &[u32], work: &mut [u64])
    requires { length work.old ≤ length list.now }
    ensures { work.new ≡ take (length work.old) list.now }
{
    for (i, cell) in work.iter_mut().enumerate() {
        *cell = list[i] as u64;
    }
}

// Takes row k of U away so often that column c becomes 0; returns how often. A multiple of 0 is left out.
pub fn reduce_by_row(q: Modulus, u: &Compressed, k: usize, c: usize, work: &mut [u64]) -> u32
    requires { EliminationReady q.p k c u.now work.old }
    ensures { Eliminated q.p u.now k c work.old work.new result }
{
    let v = q.reduce_cell(work[c]);
    if v == 0 {
        return v;
    }
    subtract_row(q, u, k, v, work);
    v
}

// Reduces the working row by the first r rows of U; their multiples go to the list `multiples`.
pub fn reduce(
    q: Modulus,
    u: &Compressed,
    co: &Words,
    r: usize,
    multiples: &mut [u32],
    work: &mut [u64],
)
    requires { MultiplesReady q.p r u.now co.now multiples.old work.old }
    ensures { Reduced q.p (vector co.now) (matrix u.now) r (vector work.old) multiples.new work.new }
{
    for k in 0..r {
        let c = index(co.at(k));
        multiples[k] = reduce_by_row(q, u, k, c, work);
    }
}

// The lowest place at which the working row does not stand for 0, or its length.
pub fn lowest_nonzero(q: Modulus, work: &[u64]) -> usize
    requires { 0 < q.p }
    ensures { result ≡ lowest_of (length work.now) (λ l. get_or work.now l 0 % q.p) }
{
    first_nonzero(q, work)
}

// Reduces the question y; returns the lowest column at which its remainder is not 0, or m.
pub fn reduce_question(
    q: Modulus,
    u: &Compressed,
    co: &Words,
    r: usize,
    y: &[u32],
    multiples: &mut [u32],
    work: &mut [u64],
) -> usize
    requires { QuestionReady q.p r u.now co.now y.now multiples.old work.old }
    ensures { QuestionReduced q.p (vector co.now) (matrix u.now) r (vector y.now) multiples.new work.new result }
{
    load(y, work);
    reduce(q, u, co, r, multiples, work);
    let j = lowest_nonzero(q, work);
    clear_row(work);
    j
}

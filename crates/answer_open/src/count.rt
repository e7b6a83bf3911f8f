// The closed columns beside the pivot column of a row of U.
ghost use Rattle.std.specs.Prelude.{◌≡◌, ◌<◌, length};
ghost use Rattle.sparse.specs.Row.{Below};
ghost use Rattle.sparse.specs.Matrix.{row_of};
ghost use Rattle.answer_open.specs.Counting.{closed_at, closed_others};
ghost use Rattle.answer_open.specs.Needs.{CountReady};

use lists::index;
use sparse::stored::Compressed;
use sparse::words::Words;

// 1 where the column c is another one than d and not open, else 0.
#[tactic(auto, unfolding(crate::specs::Counting::closed_at))]
fn closed_at(marks: &[u32], d: u32, c: u32) -> usize
    requires { c < length marks.now }
    ensures { result ≡ closed_at d marks.now c }
{
    if c == d {
        return 0;
    }
    if marks[index(c)] == 0 {
        return 1;
    }
    0
}

// How many columns of a sparse row are other ones than d and not open.
fn closed_others(cols: &Words, marks: &[u32], d: u32) -> usize
    requires { Below (length marks.now) cols.now }
    ensures { result ≡ closed_others d marks.now cols.now }
{
    let mut found: usize = 0;
    for t in 0..cols.len() {
        let c = cols.at(t);
        found += closed_at(marks, d, c);
    }
    found
}

// The same of row k of U.
pub fn row_closed(u: &Compressed, marks: &[u32], p: u32, k: usize, d: u32) -> usize
    requires { CountReady p k u.now marks.now }
    ensures { result ≡ closed_others d marks.now (row_of u.now.starts k u.now.cols) }
{
    closed_others(&u.row(k).cols, marks, d)
}

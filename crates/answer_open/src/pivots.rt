// All open columns, from the last row of U up.
ghost use Rattle.std.specs.Prelude.{length, get_or};
ghost use Rattle.lists.specs.Tabulate.{tabulate};
ghost use Rattle.algebra.specs.Matrix.{vector};
ghost use Rattle.sparse.specs.Matrix.{matrix};
ghost use Rattle.answer_open.specs.Opening.{open_cell, SettledTo, SettledOn, PivotCell, ColumnsListed, AllColumns};
ghost use Rattle.answer_open.specs.Needs.{PivotCellReady, CountingReady, NextReady, LeftReady, PivotsReady, ColumnsReady};

use crate::count::row_closed;
use crate::unit::unit_open;
use crate::witness::mark_closed;
use lists::{clear, index};
use residue::Modulus;
use sparse::stored::Compressed;
use sparse::words::Words;

// How many reductions are made before the first witness, which takes as long as some of them.
const FEW_REDUCTIONS: usize = 16;

// 1 where row k's pivot column is open, else 0. It is closed where it is marked, open where all other columns of the row are, closed
// where one is not; only where more are not open its unit question is reduced.
fn pivot_open(
    q: Modulus,
    u: &Compressed,
    co: &Words,
    marks: &[u32],
    k: usize,
    r: usize,
    work: &mut [u64],
) -> u32
    requires { PivotCellReady q.p k r u.now co.now marks.now work.old }
    ensures { PivotCell (open_cell q.p (length work.old) (vector co.now) (matrix u.now) r (get_or co.now k 0)) result work.new }
{
    let d = co.at(k);
    if marks[index(d)] != 0 {
        return 0;
    }
    let closed = row_closed(u, marks, q.p, k, d);
    if closed == 0 {
        return 1;
    }
    if closed == 1 {
        return 0;
    }
    unit_open(q, u, co, k, r, work)
}

// The verdicts of the pivot columns from row from - 1 up, while each row has at most one closed column beside its own; gives how many rows
// are left.
fn settle_by_counts(
    p: u32,
    u: &Compressed,
    co: &Words,
    r: usize,
    from: usize,
    marks: &mut [u32],
) -> usize
    requires { CountingReady p r from u.now co.now marks.old }
    ensures { SettledTo p r u.now co.now (length marks.old) from marks.new result }
{
    for k in (0..from).rev() {
        let d = co.at(k);
        let closed = row_closed(u, marks, p, k, d);
        if 1 < closed {
            return k + 1;
        }
        marks[index(d)] = (1 - closed) as u32;
    }
    0
}

// The verdict of the pivot column of row left - 1 by reduction, and of those before it by counts; gives how many rows are left.
fn settle_next(
    q: Modulus,
    u: &Compressed,
    co: &Words,
    r: usize,
    left: usize,
    marks: &mut [u32],
    work: &mut [u64],
) -> usize
    requires { NextReady q.p r left u.now co.now marks.old work.old }
    ensures { SettledOn q.p r u.now co.now (length marks.old) left marks.new work.new result }
{
    let k = left - 1;
    let j = index(co.at(k));
    marks[j] = unit_open(q, u, co, k, r, work);
    settle_by_counts(q.p, u, co, r, k, marks)
}

// The same while rows are left, by few reductions.
fn settle_few(
    q: Modulus,
    u: &Compressed,
    co: &Words,
    r: usize,
    from: usize,
    marks: &mut [u32],
    work: &mut [u64],
) -> usize
    requires { LeftReady q.p r from u.now co.now marks.old work.old }
    ensures { SettledOn q.p r u.now co.now (length marks.old) from marks.new work.new result }
{
    let mut left = from;
    for _ in 0..FEW_REDUCTIONS {
        if left == 0 {
            return 0;
        }
        left = settle_next(q, u, co, r, left, marks, work);
    }
    left
}

// The verdicts of the pivot columns of the first `left` rows, where the others are settled.
fn settle_left(
    q: Modulus,
    u: &Compressed,
    co: &Words,
    r: usize,
    left: usize,
    marks: &mut [u32],
    work: &mut [u64],
)
    requires { LeftReady q.p r left u.now co.now marks.old work.old }
    ensures { ColumnsListed (tabulate (length marks.old) (open_cell q.p (length marks.old) (vector co.now) (matrix u.now) r)) marks.new work.new }
{
    for k in (0..left).rev() {
        let j = index(co.at(k));
        marks[j] = pivot_open(q, u, co, marks, k, r, work);
    }
}

// The open columns, where the working row has a cell for each column.
fn open_pivots(
    q: Modulus,
    u: &Compressed,
    co: &Words,
    r: usize,
    marks: &mut [u32],
    work: &mut [u64],
)
    requires { PivotsReady q.p r u.now co.now marks.old work.old }
    ensures { ColumnsListed (tabulate (length marks.old) (open_cell q.p (length marks.old) (vector co.now) (matrix u.now) r)) marks.new work.new }
{
    clear(marks);
    let counted = settle_by_counts(q.p, u, co, r, r, marks);
    let left = settle_few(q, u, co, r, counted, marks, work);
    mark_closed(q, u, co, r, left, marks);
    settle_left(q, u, co, r, left, marks, work);
}

// Fills the list `marks` with 1 for each open column and 0 for each closed one.
pub fn open_columns(
    q: Modulus,
    co: &Words,
    u: &Compressed,
    r: usize,
    marks: &mut [u32],
    work: &mut [u64],
)
    requires { ColumnsReady q.p r u.now co.now marks.old work.old }
    ensures { AllColumns q.p r co.now u.now marks.new work.new }
{
    let m = marks.len();
    open_pivots(q, u, co, r, marks, &mut work[..m]);
}

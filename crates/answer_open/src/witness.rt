// Witnesses: a vector z with U z = 0 shows that each column at which it is not 0 is closed.
ghost use Rattle.std.specs.Prelude.{◌<◌, length};
ghost use Rattle.algebra.specs.Matrix.{vector};
ghost use Rattle.sparse.specs.Matrix.{matrix};
ghost use Rattle.answer_open.specs.Witness.{NonzeroPivot, ClosedPivot, ChangedOnly, MarkedOne};
ghost use Rattle.answer_open.specs.Needs.{MarkOneReady, MarkReady, RoundReady, WitnessReady};

use crate::choose::choose_values;
use limits::SIZE_CELLS;
use lists::index;
use residue::Modulus;
use row_space::upper::solve_upper;
use sparse::stored::Compressed;
use sparse::words::Words;

// At so many columns that no witness showed closed, one more takes longer than their reductions.
const FEW_MISSING: usize = 8;

// Marks the column c where its value is not 0; gives 1 where it was not marked before, else 0.
fn mark_one(c: usize, values: &[u32], marks: &mut [u32]) -> usize
    requires { MarkOneReady c values.now marks.old }
    ensures { MarkedOne c values.now marks.old marks.new result }
{
    if values[c] == 0 {
        return 0;
    }
    if marks[c] != 0 {
        return 0;
    }
    marks[c] = 1;
    1
}

// Marks the pivot columns of the first `left` rows whose values are not 0; gives how many were not marked before.
fn mark_nonzero(co: &Words, left: usize, values: &[u32], marks: &mut [u32]) -> usize
    requires { MarkReady left co.now values.now marks.old }
    ensures { ChangedOnly (NonzeroPivot left co.now values.now) marks.old marks.new }
{
    let mut found: usize = 0;
    for i in 0..left {
        let c = index(co.at(i));
        found += mark_one(c, values, marks);
    }
    found
}

// Marks closed pivot columns of the first `left` rows, by one witness; gives how many were not marked before.
fn mark_round(
    q: Modulus,
    u: &Compressed,
    co: &Words,
    r: usize,
    left: usize,
    seed: u32,
    values: &mut [u32],
    marks: &mut [u32],
) -> usize
    requires { RoundReady q.p r left u.now co.now values.old marks.old }
    ensures { ChangedOnly (ClosedPivot q.p (length marks.old) (vector co.now) (matrix u.now) r left) marks.old marks.new }
{
    choose_values(q.p, co, r, seed, values);
    solve_upper(q, u, co, r, values);
    mark_nonzero(co, left, values, marks)
}

// How many witnesses are worth their time: each misses a closed column once in about p.
fn rounds_for(p: u32) -> u32 {
    if p == 2 {
        return 8;
    }
    if p < 16 {
        return 4;
    }
    if p < 1000 {
        return 2;
    }
    1
}

// How many columns are still not shown closed, where `found` more are.
fn missing_after(missing: usize, found: usize) -> usize {
    if found < missing { missing - found } else { 0 }
}

// How many more are worth it: none where few columns are missing, and half of them where the last one showed nothing new.
fn rounds_after(rounds: u32, found: usize, missing: usize) -> u32
    requires { 0 < rounds }
    ensures { result < rounds }
{
    if missing <= FEW_MISSING {
        return 0;
    }
    if found == 0 {
        return rounds / 2;
    }
    rounds - 1
}

// The same by several witnesses.
fn mark_rounds(
    q: Modulus,
    u: &Compressed,
    co: &Words,
    r: usize,
    left: usize,
    values: &mut [u32],
    marks: &mut [u32],
)
    requires { RoundReady q.p r left u.now co.now values.old marks.old }
    ensures { ChangedOnly (ClosedPivot q.p (length marks.old) (vector co.now) (matrix u.now) r left) marks.old marks.new }
{
    let mut missing = left;
    let mut rounds = rounds_for(q.p);
    // A while: a turn takes off one or half of the rounds.
    while 0 < rounds {
        let found = mark_round(q, u, co, r, left, rounds, values, marks);
        missing = missing_after(missing, found);
        rounds = rounds_after(rounds, found, missing);
    }
}

// Marks most closed pivot columns of the first `left` rows, and no open one; all other cells are as before.
pub fn mark_closed(q: Modulus, u: &Compressed, co: &Words, r: usize, left: usize, marks: &mut [u32])
    requires { WitnessReady q.p r left u.now co.now marks.old }
    ensures { ChangedOnly (ClosedPivot q.p (length marks.old) (vector co.now) (matrix u.now) r left) marks.old marks.new }
{
    if left == 0 {
        return;
    }
    let m = marks.len();
    let mut values = [0u32; SIZE_CELLS];
    mark_rounds(q, u, co, r, left, &mut values[..m], marks);
}

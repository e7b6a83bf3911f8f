// The answer to slot values from a set that passed, in place in the lent lists s and w.
ghost use Rattle.std.specs.Prelude.{length, take};
ghost use Rattle.lists.specs.Tabulate.{tabulate};
ghost use Rattle.algebra.specs.Matrix.{vector};
ghost use Rattle.sparse.specs.Matrix.{matrix};
ghost use Rattle.sparse.specs.Views.{set_in};
ghost use Rattle.column_space.specs.Substitution.{settle};
ghost use Rattle.column_space.specs.Slots.{solve_slots};
ghost use Rattle.answer_slots.specs.Needs.{ValuesReady, SolvedReady, ContradictedReady, SlotsReady};
ghost use Rattle.answer_slots.specs.Solving.{left_kernel_from, ValuesFound, SolvedAs, ContradictedAs, SlotsAnswered};

use crate::contradiction::contradict;
use crate::forward::forward;
use crate::gaps::lowest_gap;
use crate::settle::settle;
use column_space::SlotVerdict;
use lists::clear;
use residue::Modulus;
use sparse::set::Factors;
use sparse::stored::Compressed;
use sparse::words::Words;

// The values t, in the first r cells of w; returns the position of the lowest-numbered slot with a gap, or the number of slots.
fn values_and_gap(
    q: Modulus,
    l: &Compressed,
    ro: &Words,
    r: usize,
    h: &[u32],
    w: &mut [u32],
) -> usize
    requires { ValuesReady q.p r l.now ro.now h.now w.old }
    ensures { ValuesFound q.p r (vector ro.now) (matrix l.now) (vector h.now) w.new result }
{
    clear(w);
    forward(q, l, ro, h, &mut w[..r]);
    lowest_gap(q, l, ro, h, &w[..r])
}

// Solved: s from the values that stand in w, which is cleared.
fn solved_answer(q: Modulus, u: &Compressed, co: &Words, r: usize, s: &mut [u32], w: &mut [u32])
    requires { SolvedReady q.p r u.now co.now s.old w.old }
    ensures { SolvedAs (tabulate (length s.old) (settle q.p (length s.old) (vector co.now) (matrix u.now) (vector (take r w.old)) r (λ j. 0))) s.new w.new }
{
    clear(s);
    settle(q, u, co, &w[..r], s);
    clear(w); // the values are not needed any more
}

// Contradicted: w from the slot at position i.
fn contradicted_answer(
    q: Modulus,
    l: &Compressed,
    ro: &Words,
    r: usize,
    i: usize,
    s: &mut [u32],
    w: &mut [u32],
    work: &mut [u64],
)
    requires { ContradictedReady q.p r i l.now ro.now w.old work.old }
    ensures { ContradictedAs (left_kernel_from q.p (length w.old) r (vector ro.now) (matrix l.now) i) s.new w.new work.new }
{
    clear(s);
    clear(w);
    contradict(q, l, ro, i, w, &mut work[..r]);
}

// The verdict on the slot values h, and its s or w.
pub fn solve(
    q: Modulus,
    f: &Factors,
    h: &[u32],
    s: &mut [u32],
    w: &mut [u32],
    work: &mut [u64],
) -> SlotVerdict
    requires { SlotsReady q.p (set_in f.now) h.now s.old w.old work.old }
    ensures { SlotsAnswered (solve_slots q.p (length w.old) (length s.old) (set_in f.now) (vector h.now)) result s.new w.new work.new }
{
    let r = f.r as usize;
    let i = values_and_gap(q, &f.l, &f.ro, r, h, w);
    if i < h.len() {
        contradicted_answer(q, &f.l, &f.ro, r, i, s, w, work);
        return SlotVerdict::Contradiction;
    }
    solved_answer(q, &f.u, &f.co, r, s, w);
    SlotVerdict::Solved
}

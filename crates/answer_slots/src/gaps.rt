// The lowest-numbered slot with a gap: its value differs from its row of L times the values t.
ghost use Rattle.std.specs.Prelude.{◌≡◌, ◌+◌, length};
ghost use Rattle.algebra.specs.Matrix.{vector};
ghost use Rattle.sparse.specs.Matrix.{matrix};
ghost use Rattle.answer_slots.specs.Solving.{SlotAt, gap_from, LowestBelow, lowest_position};
ghost use Rattle.answer_slots.specs.Needs.{GapReady, BetterReady, GapsReady};

use crate::lacking::lacking_value;
use lists::index;
use residue::Modulus;
use sparse::stored::Compressed;
use sparse::words::Words;

// The slot at position i; the number of slots where i is no position.
fn slot_at(ro: &Words, i: usize) -> usize
    ensures { SlotAt ro.now i result }
{
    let n = ro.len();
    if i < n {
        return index(ro.at(i));
    }
    n
}

// What the slot at position i has over row i of L times t.
fn gap(q: Modulus, l: &Compressed, ro: &Words, h: &[u32], t: &[u32], i: usize) -> u32
    requires { GapReady q.p i l.now ro.now h.now t.now }
    ensures { result ≡ gap_from q.p (vector ro.now) (matrix l.now) (vector h.now) t.now i }
{
    let slot = index(ro.at(i));
    lacking_value(q, l, i, t, h[slot])
}

// The better of two positions: i where its slot has a gap and comes before the slot at `best`, which is the number of slots where none was found yet.
// The numbers are compared first: that is cheaper than a row.
fn better(
    q: Modulus,
    l: &Compressed,
    ro: &Words,
    h: &[u32],
    t: &[u32],
    i: usize,
    best: usize,
) -> usize
    requires { BetterReady q.p i best l.now ro.now h.now t.now }
    ensures { LowestBelow (length h.now) (vector ro.now) (gap_from q.p (vector ro.now) (matrix l.now) (vector h.now) t.now) (i + 1) result }
{
    if slot_at(ro, best) <= slot_at(ro, i) {
        return best;
    }
    if gap(q, l, ro, h, t, i) == 0 {
        return best;
    }
    i
}

// The position of the lowest-numbered slot with a gap, or the number of slots. The first slots have none: t solves their rows.
pub fn lowest_gap(q: Modulus, l: &Compressed, ro: &Words, h: &[u32], t: &[u32]) -> usize
    requires { GapsReady q.p l.now ro.now h.now t.now }
    ensures { result ≡ lowest_position q.p (length h.now) (vector ro.now) (matrix l.now) (vector h.now) t.now }
{
    let n = h.len();
    let mut best = n;
    for i in t.len()..n {
        best = better(q, l, ro, h, t, i, best);
    }
    best
}

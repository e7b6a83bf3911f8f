// Multiples of rows taken away from the working row, by way of their copies where they have one.
ghost use Rattle.std.specs.Prelude.{◌*◌};
ghost use Rattle.sparse.specs.Matrix.{matrix};
ghost use Rattle.sparse.specs.WorkingRow.{GrownBy, growth};
ghost use Rattle.sparse.specs.Views.{stored_at, stored_before};
ghost use Rattle.factor_copies.specs.Copies.{CopyTakeReady};

use lists::{index, part};
use residue::Modulus;
use sparse::growing::{add_from, grow_list_row};

// work - c M[k], where M is a matrix in stored lists. The cells of a copy are added in one run, zeros among them, several at once:
// that is faster than entry by entry.
pub fn take_copied(
    q: Modulus,
    starts: &[u32],
    cols: &[u32],
    vals: &[u32],
    copies: &[u32],
    k: usize,
    c: u32,
    work: &mut [u64],
)
    requires { CopyTakeReady q.p k c (stored_at starts.now cols.now vals.now) copies.now work.old }
    ensures { GrownBy q.p (growth q.p) (λ j. c * matrix (stored_before starts.now cols.now vals.now) k j) work.old work.new }
{
    let at = index(copies[k]);
    if at == 0 {
        grow_list_row(q, starts, cols, vals, k, c, work);
        return;
    }
    let low = index(copies[2048 + k]);
    let end = at + (work.len() - low);
    add_from(q.p - c, low, part(copies, at, end), work);
}

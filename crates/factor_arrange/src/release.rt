// A row that waits no more.
ghost use Rattle.std.specs.Prelude.{◌≡◌, length, set};
ghost use Rattle.factor_arrange.specs.Needs.{DegreeFallsReady, Lowered, ReleaseReady, Released};
ghost use Rattle.sparse.specs.Views.{stored_at, stored_before};

use factor_names::columns_of;
use lists::index;

// Row q has one row less that leads to it; where none leads to it any more it becomes ready. Gives the lower of `low` and the row that became ready.
fn lower(q: usize, low: usize, degrees: &mut [u32], ready: &mut [u64]) -> usize
    requires { DegreeFallsReady q degrees.old ready.old }
    ensures { Lowered q low degrees.old ready.old degrees.new ready.new result }
{
    let left = degrees[q] - 1;
    degrees[q] = left;
    if left != 0 {
        return low;
    }
    ready[q] = 1;
    if low < q {
        return low;
    }
    q
}

// Takes row k, which is ready, from those that wait: the pivots to which it leads have one row less that leads to them, and those to which none leads
// any more become ready. Gives a row, at most k, before which none became ready.
pub fn release(
    starts: &[u32],
    cols: &[u32],
    vals: &[u32],
    p: u32,
    k: usize,
    work: &[u64],
    chosen: &[u32],
    waits: &mut [u32],
    degrees: &mut [u32],
    ready: &mut [u64],
) -> usize
    requires { ReleaseReady p (length ready.old) k (stored_at starts.now cols.now vals.now) work.now chosen.now waits.old degrees.old ready.old }
    ensures { (waits.new ≡ set waits.old k 0) × Released p (length ready.old) k (stored_before starts.now cols.now vals.now) work.now chosen.now waits.old ready.old degrees.new ready.new result }
{
    waits[k] = 0;
    ready[k] = 0;
    let own = k as u64 + 1;
    let row = columns_of(starts, cols, k);
    let mut low = k;
    for &j in row {
        let cell = work[index(j)];
        if cell != 0 && cell != own {
            low = lower(cell as usize - 1, low, degrees, ready);
        }
    }
    low
}

// How many waiting rows lead to each pivot.
ghost use Rattle.std.specs.Prelude.{◌+◌, length};
ghost use Rattle.factor_arrange.specs.Waiting.{waiting_to, waiting, DegreesCounted, Ready};
ghost use Rattle.factor_arrange.specs.Needs.{DegreesReady, DegreeRowReady, MarkReady};
ghost use Rattle.sparse.specs.Views.{stored_at, stored_before};

use factor_names::columns_of;
use lists::index;

// Counts row k, which leads to the pivots of the other columns that it has.
fn count_row(
    starts: &[u32],
    cols: &[u32],
    vals: &[u32],
    p: u32,
    n: usize,
    k: usize,
    work: &[u64],
    chosen: &[u32],
    degrees: &mut [u32],
)
    requires { DegreeRowReady p n k (stored_at starts.now cols.now vals.now) work.now chosen.now degrees.old }
    ensures { DegreesCounted (stored_before starts.now cols.now vals.now) work.now (waiting_to chosen.now (k + 1)) degrees.new }
{
    let row = columns_of(starts, cols, k);
    let own = k as u64 + 1;
    for &j in row {
        let cell = work[index(j)];
        if cell != 0 && cell != own {
            let q = cell as usize - 1;
            degrees[q] += 1;
        }
    }
}

// Counts all rows that are chosen.
pub fn count(
    starts: &[u32],
    cols: &[u32],
    vals: &[u32],
    p: u32,
    n: usize,
    work: &[u64],
    chosen: &[u32],
    degrees: &mut [u32],
)
    requires { DegreesReady p n (stored_at starts.now cols.now vals.now) work.now chosen.now degrees.old }
    ensures { DegreesCounted (stored_before starts.now cols.now vals.now) work.now (waiting chosen.now) degrees.new }
{
    for k in 0..n {
        if chosen[k] != 0 {
            count_row(starts, cols, vals, p, n, k, work, chosen, degrees);
        }
    }
}

// Marks the rows that are chosen and to which none leads.
pub fn mark_ready(chosen: &[u32], degrees: &[u32], ready: &mut [u64])
    requires { MarkReady chosen.now degrees.now ready.old }
    ensures { Ready chosen.now degrees.now ready.new }
{
    for (i, &cell) in chosen.iter().enumerate() {
        if cell != 0 && degrees[i] == 0 {
            ready[i] = 1;
        }
    }
}

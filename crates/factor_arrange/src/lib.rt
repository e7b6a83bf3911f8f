// The order of the structural pivots (document 02, slip 9): always the lowest-numbered row to which no row still waiting leads.
// One pivot leads to another when its row has an entry in the other's column. The modulus and the values are named in contracts only.
#![tactic(auto)]

ghost use Rattle.std.specs.Prelude.{length};
ghost use Rattle.factor_arrange.specs.Needs.{ArrangeReady, Arranged, ListReady, OrderReady};
ghost use Rattle.sparse.specs.Views.{stored_at, stored_before};

use limits::SIZE_CELLS;

pub mod degrees;
pub mod release;

// Lists the pairs, each as it comes: the lowest ready row, which then waits no more. Gives how many there are.
fn list_pairs(
    starts: &[u32],
    cols: &[u32],
    vals: &[u32],
    p: u32,
    work: &[u64],
    chosen: &[u32],
    waits: &mut [u32],
    degrees: &mut [u32],
    ready: &mut [u64],
    ro: &mut [u32],
    co: &mut [u32],
) -> usize
    requires { ListReady p (length ready.old) (stored_at starts.now cols.now vals.now) work.now chosen.now waits.old degrees.old ready.old ro.old co.old }
    ensures { Arranged (length ready.old) (length work.now) (stored_before starts.now cols.now vals.now) result ro.new co.new }
{
    let mut k = sparse::scan::next_nonzero(ready, 0);
    for at in 0..ready.len() {
        if k == ready.len() {
            return at;
        }
        ro[at] = k as u32;
        co[at] = waits[k] - 1;
        let low = release::release(
            starts, cols, vals, p, k, work, chosen, waits, degrees, ready,
        );
        k = sparse::scan::next_nonzero(ready, low);
    }
    ready.len()
}

// Puts the selected pairs in order, with a cell for each row of what waits, of the degrees and of the ready rows. Gives how many there are.
fn order_pairs(
    starts: &[u32],
    cols: &[u32],
    vals: &[u32],
    p: u32,
    n: usize,
    work: &[u64],
    chosen: &[u32],
    waits: &mut [u32],
    counts: &mut [u32],
    ready: &mut [u64],
    ro: &mut [u32],
    co: &mut [u32],
) -> usize
    requires { OrderReady p n (stored_at starts.now cols.now vals.now) work.now chosen.now waits.old counts.old ready.old ro.old co.old }
    ensures { Arranged n (length work.now) (stored_before starts.now cols.now vals.now) result ro.new co.new }
{
    waits.copy_from_slice(chosen);
    degrees::count(starts, cols, vals, p, n, work, chosen, counts);
    degrees::mark_ready(chosen, counts, ready);
    list_pairs(
        starts, cols, vals, p, work, chosen, waits, counts, ready, ro, co,
    )
}

// Puts the selected pairs in order, which the working row names by column and `chosen` by row. Gives how many there are.
pub fn arrange(
    starts: &[u32],
    cols: &[u32],
    vals: &[u32],
    p: u32,
    n: usize,
    work: &[u64],
    chosen: &[u32],
    ro: &mut [u32],
    co: &mut [u32],
) -> usize
    requires { ArrangeReady p n (stored_at starts.now cols.now vals.now) work.now chosen.now ro.old co.old }
    ensures { Arranged n (length work.now) (stored_before starts.now cols.now vals.now) result ro.new co.new }
{
    let mut waits = [0u32; SIZE_CELLS];
    let mut counts = [0u32; SIZE_CELLS];
    let mut ready = [0u64; SIZE_CELLS];
    order_pairs(
        starts,
        cols,
        vals,
        p,
        n,
        work,
        chosen,
        &mut waits[..n],
        &mut counts[..n],
        &mut ready[..n],
        ro,
        co,
    )
}

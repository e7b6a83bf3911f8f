// More pivots before any arithmetic (document 02, slip 9; document 003, 3.4): rows that rule 1 left take a column where no cycle closes.
// The working row has a cell for each column, one more than the row chosen for it; `chosen` a cell for each row, one more than its column; 0 is none.
// The modulus and the values are named in contracts only.
#![tactic(auto)]

ghost use Rattle.std.specs.Prelude.{◌≡◌, ◌+◌, length};
ghost use Rattle.elimination.specs.Structural.{leading};
ghost use Rattle.factor_names.specs.Named.{ByRow, Named};
ghost use Rattle.factor_select.specs.Needs.{NameReady, Extended, ExtendReady, SelectReady};
ghost use Rattle.sparse.specs.Views.{stored_at, stored_before};

use limits::SIZE_CELLS;

pub mod fit;
pub mod search;

// Names the column of each row that is chosen.
fn name_rows(
    starts: &[u32],
    cols: &[u32],
    vals: &[u32],
    p: u32,
    n: usize,
    work: &[u64],
    chosen: &mut [u32],
)
    requires { NameReady p n (stored_at starts.now cols.now vals.now) work.now chosen.old }
    ensures { ByRow chosen.new (leading (stored_before starts.now cols.now vals.now) n (length work.now)) }
{
    for (c, &cell) in work.iter().enumerate() {
        if cell != 0 {
            chosen[cell as usize - 1] = c as u32 + 1;
        }
    }
}

// Takes row i: unless it is chosen, it gets its lowest column that is not used and closes no cycle, if there is one.
fn extend_row(
    starts: &[u32],
    cols: &[u32],
    vals: &[u32],
    p: u32,
    n: usize,
    i: usize,
    work: &mut [u64],
    chosen: &mut [u32],
    stamps: &mut [u32],
    queue: &mut [u32],
)
    requires { ExtendReady p n i (stored_at starts.now cols.now vals.now) work.old chosen.old stamps.old queue.old }
    ensures { Extended (stored_before starts.now cols.now vals.now) n (length work.old) (i + 1) work.new chosen.new stamps.new queue.new }
{
    if chosen[i] != 0 {
        return;
    }
    let mark = i as u32 + 1;
    let c = search::search(
        starts, cols, vals, p, n, i, mark, work, chosen, stamps, queue,
    );
    if c < work.len() {
        work[c] = i as u64 + 1;
        chosen[i] = c as u32 + 1;
    }
}

// Takes all rows by number.
fn extend_all(
    starts: &[u32],
    cols: &[u32],
    vals: &[u32],
    p: u32,
    n: usize,
    work: &mut [u64],
    chosen: &mut [u32],
    stamps: &mut [u32],
    queue: &mut [u32],
)
    requires { SelectReady p n (stored_at starts.now cols.now vals.now) work.old chosen.old stamps.old queue.old }
    ensures { Extended (stored_before starts.now cols.now vals.now) n (length work.old) n work.new chosen.new stamps.new queue.new }
{
    for i in 0..n {
        extend_row(starts, cols, vals, p, n, i, work, chosen, stamps, queue);
    }
}

// Selects the structural pivots: the working row names document 01's, `chosen` is all zero; afterwards both name all that are selected.
pub fn select(
    starts: &[u32],
    cols: &[u32],
    vals: &[u32],
    p: u32,
    n: usize,
    work: &mut [u64],
    chosen: &mut [u32],
)
    requires { NameReady p n (stored_at starts.now cols.now vals.now) work.old chosen.old }
    ensures { Named (stored_before starts.now cols.now vals.now) n (length work.old) n work.new chosen.new }
{
    let m = work.len();
    let mut stamps = [0u32; SIZE_CELLS];
    let mut queue = [0u32; SIZE_CELLS];
    name_rows(starts, cols, vals, p, n, work, chosen);
    extend_all(
        starts,
        cols,
        vals,
        p,
        n,
        work,
        chosen,
        &mut stamps[..m],
        &mut queue[..m],
    );
}

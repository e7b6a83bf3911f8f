// The structural pivots, without arithmetic modulo p: pivot rule 1 leaves in the working row, for each column, one more than the row chosen for it, or 0;
// the selection adds rows that close no cycle; the arrangement puts all of them in order.
// The modulus and the values are named in contracts only.
ghost use Rattle.std.specs.Prelude.{◌≡◌, ◌+◌, ◌-◌, length, get_or};
ghost use Rattle.factor_order.specs.Needs.{Searchable, Findable};
ghost use Rattle.factor_order.specs.Search.{RowStarts, PreferReady, Preferred, Chosen, ChooseReady, ConsiderReady, PairsFound};
ghost use Rattle.sparse.specs.Views.{stored_at, stored_before};

use limits::SIZE_CELLS;
use lists::index;

// How many entries row i has.
fn entries(starts: &[u32], i: usize) -> u32
    requires { RowStarts starts.now i }
    ensures { result ≡ get_or starts.now (i + 1) 0 - get_or starts.now i 0 }
{
    starts[i + 1] - starts[i]
}

// The cell of the column at which row i leads, where `cell` was it before.
fn preferred(starts: &[u32], i: usize, cell: u64) -> u64
    requires { PreferReady starts.now i cell }
    ensures { Preferred starts.now i cell result }
{
    if cell == 0 {
        return i as u64 + 1;
    }
    if entries(starts, i) < entries(starts, cell as usize - 1) {
        return i as u64 + 1;
    }
    cell
}

// Considers row i for its leftmost column.
fn consider(starts: &[u32], cols: &[u32], vals: &[u32], p: u32, i: usize, work: &mut [u64])
    requires { ConsiderReady p i (stored_at starts.now cols.now vals.now) work.old }
    ensures { Chosen (stored_before starts.now cols.now vals.now) (i + 1) work.new }
{
    if entries(starts, i) == 0 {
        return;
    }
    let start = index(starts[i]);
    let c = index(cols[start]);
    work[c] = preferred(starts, i, work[c]);
}

// Chooses among the n rows: the cell of each column names its row.
fn choose(starts: &[u32], cols: &[u32], vals: &[u32], p: u32, n: usize, work: &mut [u64])
    requires { ChooseReady p n (stored_at starts.now cols.now vals.now) work.old }
    ensures { Chosen (stored_before starts.now cols.now vals.now) n work.new }
{
    for i in 0..n {
        consider(starts, cols, vals, p, i, work);
    }
}

// Finds the structural pivots; `named` has a cell for each row and is all zero.
fn find_pairs(
    starts: &[u32],
    cols: &[u32],
    vals: &[u32],
    p: u32,
    n: usize,
    named: &mut [u32],
    ro: &mut [u32],
    co: &mut [u32],
    work: &mut [u64],
) -> usize
    requires { Findable p n (length co.old) (stored_at starts.now cols.now vals.now) named.old ro.old co.old work.old }
    ensures { PairsFound n (length co.old) (stored_before starts.now cols.now vals.now) result ro.new co.new work.new }
{
    choose(starts, cols, vals, p, n, work);
    factor_select::select(starts, cols, vals, p, n, work, named);
    let found = factor_arrange::arrange(starts, cols, vals, p, n, work, named, ro, co);
    lists::clear_row(work);
    found
}

// Finds the structural pivots: document 01's, those that close no cycle with them, and their order; gives how many there are.
pub fn structural_pairs(
    starts: &[u32],
    cols: &[u32],
    vals: &[u32],
    p: u32,
    n: usize,
    ro: &mut [u32],
    co: &mut [u32],
    work: &mut [u64],
) -> usize
    requires { Searchable p n (length co.old) (stored_at starts.now cols.now vals.now) ro.old co.old work.old }
    ensures { PairsFound n (length co.old) (stored_before starts.now cols.now vals.now) result ro.new co.new work.new }
{
    let mut named = [0u32; SIZE_CELLS];
    find_pairs(starts, cols, vals, p, n, &mut named[..n], ro, co, work)
}

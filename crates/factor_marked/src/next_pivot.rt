// The search for the next pivot at whose column the working row is not 0. A block of sixteen pivots without a mark has a 0 at each
// of its columns, and is passed over.
ghost use Rattle.std.specs.Prelude.{◌<◌, length};
ghost use Rattle.factor_touch.specs.Searching.{ZeroSpan, FirstNonzero};
ghost use Rattle.factor_marked.specs.Pivots.{pivot_cell, PivotCellsReady, PivotPassable, PivotSearchReady};

use factor_touch::searching::{block_end, next_marked};
use lists::index;

// The first pivot from `from` on, and before `end`, at whose column the row is not 0, or `end`.
fn next_in_pivots(co: &[u32], work: &[u64], from: usize, end: usize) -> usize
    requires { PivotCellsReady co.now work.now from end }
    ensures { FirstNonzero (pivot_cell co.now work.now) end from result }
{
    for k in from..end {
        if work[index(co[k])] != 0 {
            return k;
        }
    }
    end
}

// A place after k, at whose column the row is 0, up to which it is 0 at all pivot columns.
fn pass_pivots(pending: &[u8], co: &[u32], work: &[u64], k: usize) -> usize
    requires { PivotPassable pending.now co.now work.now k }
    ensures { (k < result) × ZeroSpan (pivot_cell co.now work.now) (length co.now) k result }
{
    if pending[k / 16] == 0 {
        return next_marked(pending, k, co.len());
    }
    let end = block_end(k, co.len());
    next_in_pivots(co, work, k + 1, end)
}

// The first pivot from `from` on at whose column the row is not 0, or the number of pivots.
pub fn next_pivot(pending: &[u8], co: &[u32], work: &[u64], from: usize) -> usize
    requires { PivotSearchReady pending.now co.now work.now from }
    ensures { FirstNonzero (pivot_cell co.now work.now) (length co.now) from result }
{
    let mut k = from;
    // A while: the next place is found by a search, and blocks are passed over.
    while k < co.len() {
        if work[index(co[k])] != 0 {
            return k;
        }
        k = pass_pivots(pending, co, work, k);
    }
    k
}

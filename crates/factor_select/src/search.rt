// What a row reaches through pivots: a search over columns, each of which is stamped and queued at most once (document 003, 3.4).
ghost use Rattle.std.specs.Prelude.{true, false, length, List, [], ◌∷◌, ℕ};
ghost use Rattle.factor_select.specs.Search.{TouchReady, VisitReady, Visited, Survivor};
ghost use Rattle.factor_select.specs.Needs.{SearchReady};
ghost use Rattle.sparse.specs.Views.{stored_at, stored_before};

use crate::fit::next_fit;
use lists::index;

// One column j, whose cell of the working row is given: it is stamped, and queued if it is used and had no stamp. Of the searching row's own columns
// those that are not used are left: they are its candidates. Most columns are not used, and are stamped without looking.
fn touch(
    own: bool,
    j: u32,
    cell: u64,
    work: &[u64],
    mark: u32,
    stamps: &mut [u32],
    queue: &mut [u32],
    tail: usize,
) -> usize
    requires { TouchReady work.now stamps.old queue.old mark tail j cell }
    ensures { Visited own (j ∷ []) work.now stamps.old queue.old mark tail stamps.new queue.new result }
{
    let at = index(j);
    if cell == 0 {
        if !own {
            stamps[at] = mark;
        }
        return tail;
    }
    if stamps[at] == mark {
        return tail;
    }
    stamps[at] = mark;
    queue[tail] = j;
    tail + 1
}

// The columns of a row, one after the other.
fn visit(
    own: bool,
    row: &[u32],
    work: &[u64],
    mark: u32,
    stamps: &mut [u32],
    queue: &mut [u32],
    from: usize,
) -> usize
    requires { VisitReady row.now work.now stamps.old queue.old mark from }
    ensures { Visited own row.now work.now stamps.old queue.old mark from stamps.new queue.new result }
{
    let mut tail = from;
    for &j in row {
        tail = touch(own, j, work[index(j)], work, mark, stamps, queue, tail);
    }
    tail
}

// Searches from row i: the rows of the used columns that it reaches are visited, as they come in the queue, while the row has a candidate left, a
// column that is neither used nor stamped. The lowest that is left when the queue is empty is the answer, the width where none is.
pub fn search(
    starts: &[u32],
    cols: &[u32],
    vals: &[u32],
    p: u32,
    n: usize,
    i: usize,
    mark: u32,
    work: &[u64],
    chosen: &[u32],
    stamps: &mut [u32],
    queue: &mut [u32],
) -> usize
    requires { SearchReady p n i (stored_at starts.now cols.now vals.now) work.now chosen.now stamps.old queue.old mark }
    ensures { Survivor (stored_before starts.now cols.now vals.now) n (length work.now) i mark stamps.old stamps.new result }
{
    let own = factor_names::columns_of(starts, cols, i);
    let mut tail = visit(true, own, work, mark, stamps, queue, 0);
    let mut head = 0;
    let mut t = next_fit(own, work, mark, stamps, 0);
    // A while: each turn takes a column off the queue, which grows as they are visited, and a search gives the next place.
    while t < own.len() {
        if tail <= head {
            return index(own[t]);
        }
        let c = index(queue[head]);
        let r = work[c] as usize - 1;
        let row = factor_names::columns_of(starts, cols, r);
        tail = visit(false, row, work, mark, stamps, queue, tail);
        head += 1;
        t = next_fit(own, work, mark, stamps, t);
    }
    work.len()
}

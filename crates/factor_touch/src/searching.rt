// The search for what is not 0 in marked blocks: of sixteen cells, or of sixteen pivots. Blocks without a mark are passed over.
ghost use Rattle.std.specs.Prelude.{◌+◌, ◌≤◌, ◌<◌, ◌^◌, ◌≡◌, true, length};
ghost use Rattle.algebra.specs.Matrix.{vector};
ghost use Rattle.sparse.specs.Scan.{NextNonzero};
ghost use Rattle.factor_touch.specs.Searching.{ZeroSpan, marks_of, BlockEnd, BlockPassable, CellPassable, SearchReady};

use sparse::scan::next_nonzero;

// Where the block of cell j ends in a row of n cells.
pub fn block_end(j: usize, n: usize) -> usize
    requires { (j < n) × (n < 2 ^ 62) }
    ensures { BlockEnd j n result }
{
    let end = j / 16 * 16 + 16;
    if end < n { end } else { n }
}

// One mark, as a number that can be added to others.
fn mark(marks: &[u8], b: usize) -> u64
    requires { b < length marks.now }
    ensures { (result ≡ vector marks.now b) × (result < 256) }
{
    marks[b] as u64
}

// Whether none of the eight blocks from b on is marked.
fn clear_eight(marks: &[u8], b: usize) -> bool
    requires { b + 8 ≤ length marks.now }
    ensures { result ≡ true → ZeroSpan (vector marks.now) (length marks.now) b (b + 8) }
{
    let low = mark(marks, b) + mark(marks, b + 1) + mark(marks, b + 2) + mark(marks, b + 3);
    let high = mark(marks, b + 4) + mark(marks, b + 5) + mark(marks, b + 6) + mark(marks, b + 7);
    low + high == 0
}

// Passes over blocks that are not marked, eight at a time.
fn skip_eights(marks: &[u8], from: usize) -> usize
    requires { from ≤ length marks.now }
    ensures { ZeroSpan (vector marks.now) (length marks.now) from result }
{
    let eights = (marks.len() - from) / 8;
    for k in 0..eights {
        let b = from + 8 * k;
        if !clear_eight(marks, b) {
            return b;
        }
    }
    from + 8 * eights
}

// The first marked block from `from` on, or the number of blocks.
fn next_mark(marks: &[u8], from: usize) -> usize
    requires { from ≤ length marks.now }
    ensures { NextNonzero marks.now from result }
{
    for b in skip_eights(marks, from)..marks.len() {
        if marks[b] != 0 {
            return b;
        }
    }
    marks.len()
}

// Where the block of place j is not marked, the first place after it whose block is, or n.
pub fn next_marked(marks: &[u8], j: usize, n: usize) -> usize
    requires { BlockPassable marks.now j n }
    ensures { (j < result) × ZeroSpan (marks_of marks.now) n j result }
{
    let b = next_mark(marks, j / 16 + 1);
    if b <= n / 16 { b * 16 } else { n }
}

// A place after j, whose cell is 0, up to which all cells are 0: the next marked block, or the next cell of j's block that is not 0.
fn pass_over(touched: &[u8], row: &[u64], j: usize) -> usize
    requires { CellPassable touched.now row.now j }
    ensures { (j < result) × ZeroSpan (vector row.now) (length row.now) j result }
{
    if touched[j / 16] == 0 {
        return next_marked(touched, j, row.len());
    }
    let end = block_end(j, row.len());
    next_nonzero(&row[..end], j + 1)
}

// The first cell from `from` on that is not 0, or the length.
pub fn next_touched(touched: &[u8], row: &[u64], from: usize) -> usize
    requires { SearchReady touched.now row.now from }
    ensures { NextNonzero row.now from result }
{
    let mut j = from;
    // A while: a step is as far as the cells are known to be 0.
    while j < row.len() {
        if row[j] != 0 {
            return j;
        }
        j = pass_over(touched, row, j);
    }
    j
}

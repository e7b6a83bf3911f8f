// The working row at the end of a reduction, whose cells are 0 outside the marked blocks: these blocks are passed over.
ghost use Rattle.std.specs.Prelude.{◌<◌, ◌^◌};
ghost use Rattle.sparse.specs.Storing.{RowStored};
ghost use Rattle.factor_touch.specs.Settling.{SettleReady, RowSettled, StoreSettledReady};
ghost use Rattle.factor_touch.specs.Searching.{CellCounted};

use crate::searching::next_touched;
use residue::Modulus;
use sparse::dense::put;

// How many cells of the working row are not 0, and the first of them, or the length.
#[derive(Clone, Copy)]
pub struct SettledCells {
    pub count: usize,
    pub low: usize,
}

// Counts the cell of column j, whose residue is v.
fn count_cell(found: SettledCells, v: u32, j: usize) -> SettledCells
    requires { found.count < 2 ^ 62 }
    ensures { CellCounted v j found.count found.low result.count result.low }
{
    if v == 0 {
        return found;
    }
    let count = found.count;
    let low = if count == 0 { j } else { found.low };
    SettledCells {
        count: count + 1,
        low,
    }
}

// Replaces each cell of the working row by the residue that it stands for, and counts those that are not 0.
pub fn settle(q: Modulus, touched: &[u8], work: &mut [u64]) -> SettledCells
    requires { SettleReady q.p touched.now work.old }
    ensures { RowSettled q.p work.old work.new result.count result.low }
{
    let mut found = SettledCells {
        count: 0,
        low: work.len(),
    };
    let mut j = 0;
    // A while: a search gives the next cell.
    while j < work.len() {
        let v = q.reduce_cell(work[j]);
        work[j] = v as u64;
        found = count_cell(found, v, j);
        j = next_touched(touched, work, j + 1);
    }
    found
}

// Stores the settled working row times c from place `start` on, and clears it; gives the next place.
pub fn store_settled(
    q: Modulus,
    c: u32,
    start: usize,
    touched: &[u8],
    work: &mut [u64],
    cols: &mut [u32],
    vals: &mut [u32],
) -> usize
    requires { StoreSettledReady q.p c start touched.now work.old cols.old vals.old }
    ensures { RowStored q.p c start work.old cols.old vals.old work.new cols.new vals.new result }
{
    let mut at = start;
    let mut j = 0;
    // A while: a search gives the next cell.
    while j < work.len() {
        let v = q.multiply(c, work[j] as u32);
        at = put(v, j as u32, at, cols, vals);
        work[j] = 0;
        j = next_touched(touched, work, j + 1);
    }
    at
}

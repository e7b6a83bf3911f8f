// A row of 32 cells less multiples of the rows of a block.
ghost use Rattle.std.specs.Prelude.{◌*◌};
ghost use Rattle.sparse.specs.WorkingRow.{Subtracted};
ghost use Rattle.factor_dense.specs.Block.{cells_of};
ghost use Rattle.factor_dense.specs.Taking.{LeftCells, BlockReduced};
ghost use Rattle.factor_dense.specs.Needs.{CellsReady, TakeReady, BlockReduceReady};

use lists::index;
use residue::Modulus;
use sparse::kernel::minus;

// The cells of the working row at the columns that are no structural pivots.
pub fn left_cells(js: [u32; 32], width: usize, work: &[u64]) -> [u64; 32]
    requires { CellsReady width js work.now }
    ensures { LeftCells width js work.now result }
{
    let mut out = [0u64; 32];
    for l in 0..width {
        out[l] = work[index(js[l])];
    }
    out
}

// row - c block[t]
pub fn take_block_row(
    q: Modulus,
    block: &[[u32; 32]; 32],
    t: usize,
    c: u32,
    row: [u64; 32],
) -> [u64; 32]
    requires { TakeReady q.p t c block.now row }
    ensures { Subtracted q.p (λ l. c * cells_of block.now t l) row result }
{
    let mut out = row;
    for (l, &x) in block[t].iter().enumerate() {
        out[l] = minus(q, out[l], c, x);
    }
    out
}

// What remains of a row, and the multiples of the rows of the block that were taken away from it.
#[derive(Drop)]
pub struct InBlock {
    pub row: [u64; 32],
    pub multiples: [u32; 32],
}

// Reduces the row by the first b rows of the block, in order: the value at place ks[t] when row t comes is its multiple.
pub fn reduce_in_block(
    q: Modulus,
    block: &[[u32; 32]; 32],
    ks: &[u32; 32],
    b: usize,
    row: [u64; 32],
) -> InBlock
    requires { BlockReduceReady q.p b ks.now block.now row }
    ensures { BlockReduced q.p b ks.now block.now row result.row result.multiples }
{
    let mut rest = row;
    let mut xs = [0u32; 32];
    for t in 0..b {
        let k = index(ks[t]);
        let x = q.reduce_cell(rest[k]);
        if x != 0 {
            rest = take_block_row(q, block, t, x, rest);
        }
        xs[t] = x;
    }
    InBlock {
        row: rest,
        multiples: xs,
    }
}

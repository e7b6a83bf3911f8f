// The rows that have no structural pivot, in the block.
ghost use Rattle.std.specs.Prelude.{◌≤◌, ◌+◌, length};
ghost use Rattle.sparse.specs.Views.{stored_at, stored_before, storage_at, storage_before, storage_after};
ghost use Rattle.factor_turn.specs.Others.{RowsTaken};
ghost use Rattle.factor_first.specs.Dense.{TailCopied, DenseTurned};
ghost use Rattle.factor_first.specs.Needs.{DenseTurnReady, RowsReady};

use factor_dense::taking::take_dense;
use factor_turn::turn::{Pass, Progress, settle};
use residue::Modulus;

// What a turn came to, and where it found a pivot: the place of its column, and the row that the block gets.
#[derive(Drop)]
pub struct DenseTurn {
    pub progress: Progress,
    pub place: u32,
    pub row: [u32; 32],
}

// The numbers of the list from place s on, at most 32.
fn tail(s: usize, list: &[u32]) -> [u32; 32]
    requires { (s ≤ length list.now) × (length list.now ≤ s + 32) }
    ensures { TailCopied s list.now result }
{
    let rest = &list[s..];
    let mut out = [0u32; 32];
    out[..rest.len()].copy_from_slice(rest);
    out
}

// Takes row i in the block, and enters it where it is a pivot row or keeps its row of L.
fn take_dense_row(
    q: Modulus,
    starts: &[u32],
    cols: &[u32],
    vals: &[u32],
    i: u32,
    s: usize,
    first: usize,
    from: Progress,
    js: [u32; 32],
    width: usize,
    ks: &[u32; 32],
    block: &[[u32; 32]; 32],
    ro: &mut [u32],
    co: &mut [u32],
    ls: &mut [u32],
    lc: &mut [u32],
    lv: &mut [u32],
    us: &mut [u32],
    uc: &mut [u32],
    uv: &mut [u32],
    work: &mut [u64],
) -> DenseTurn
    requires { DenseTurnReady q.p i s first width js ks.now block.now (stored_at starts.now cols.now vals.now) (storage_at ro.old co.old ls.old lc.old lv.old us.old uc.old uv.old work.old) from }
    ensures { DenseTurned q.p i s first width js ks.now block.now (stored_before starts.now cols.now vals.now) (storage_before ro.old co.old ls.old lc.old lv.old us.old uc.old uv.old work.old) (storage_after ro.new co.new ls.new lc.new lv.new us.new uc.new uv.new work.new) from result }
{
    let r = from.r;
    let d = take_dense(
        q, starts, cols, vals, i as usize, s, first, r, from.at, from.l, from.total, co, us, js,
        width, ks, block, lc, lv, uc, uv, work,
    );
    let step = d.step;
    let row = d.row;
    let m = work.len();
    let to = settle(step, i, from, m, ro, co, ls, lc, lv, us);
    DenseTurn {
        progress: to,
        place: d.place,
        row: row,
    }
}

// Takes the rows after the first s of `ro` in the block. The columns after the first s of `co` are those that are no
// structural pivots, rising; they are overwritten by the pivots found.
pub fn find_dense(
    q: Modulus,
    starts: &[u32],
    cols: &[u32],
    vals: &[u32],
    s: usize,
    from: Progress,
    ro: &mut [u32],
    co: &mut [u32],
    ls: &mut [u32],
    lc: &mut [u32],
    lv: &mut [u32],
    us: &mut [u32],
    uc: &mut [u32],
    uv: &mut [u32],
    work: &mut [u64],
) -> Pass
    requires { RowsReady q.p s (stored_at starts.now cols.now vals.now) (storage_at ro.old co.old ls.old lc.old lv.old us.old uc.old uv.old work.old) from }
    ensures { RowsTaken q.p s (stored_before starts.now cols.now vals.now) (storage_before ro.old co.old ls.old lc.old lv.old us.old uc.old uv.old work.old) (storage_after ro.new co.new ls.new lc.new lv.new us.new uc.new uv.new work.new) from result }
{
    let js = tail(s, co);
    let width = co.len() - s;
    let first = from.at;
    let mut progress = from;
    let mut block = [[0u32; 32]; 32];
    let mut ks = [0u32; 32];
    for k in s..ro.len() {
        let i = ro[k];
        let b = progress.r - s;
        let turn = take_dense_row(
            q, starts, cols, vals, i, s, first, progress, js, width, &ks, &block, ro, co, ls, lc,
            lv, us, uc, uv, work,
        );
        progress = turn.progress;
        let over = progress.over;
        if over {
            return Pass {
                stop: i,
                progress: progress,
            };
        }
        // where the row is dependent the next turn replaces this row of the block
        let row = turn.row;
        block[b] = row;
        ks[b] = turn.place;
    }
    Pass {
        stop: 0,
        progress: progress,
    }
}

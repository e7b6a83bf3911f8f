// The rows that have no structural pivot. `place` gives each column the number of its pivot, and 2048 where it is none.
ghost use Rattle.std.specs.Prelude.{false};
ghost use Rattle.sparse.specs.Views.{stored_at, stored_before, storage_at, storage_before, storage_after};
ghost use Rattle.factor_turn.specs.Turning.{TurnLeaves};
ghost use Rattle.factor_turn.specs.Others.{RowsTaken};
ghost use Rattle.factor_others.specs.Needs.{PlaceReady, PlacesFilled, PlaceEntered, EnterReady, MarkedTurnReady, OthersReady};

use factor_marked::taking::take_marked;
use factor_turn::turn::{Pass, Progress, settle};
use lists::index;
use residue::Modulus;

// Gives the first s columns of `co` their places.
fn fill_places(s: usize, co: &[u32], place: &mut [u32])
    requires { PlaceReady s co.now place.old }
    ensures { PlacesFilled s co.now place.old place.new }
{
    for (k, &column) in co[..s].iter().enumerate() {
        place[index(column)] = k as u32;
    }
}

// Gives column r of `co` its place where a turn found its pivot, the last of `found`.
fn enter_place(r: usize, found: usize, co: &[u32], place: &mut [u32])
    requires { EnterReady r found co.now place.old }
    ensures { PlaceEntered r found co.now place.old place.new }
{
    if r < found {
        place[index(co[r])] = r as u32;
    }
}

// Takes row i by way of the blocks that it touches, and enters it where it is a pivot row or keeps its row of L.
fn take_marked_row(
    q: Modulus,
    starts: &[u32],
    cols: &[u32],
    vals: &[u32],
    i: u32,
    from: Progress,
    place: &[u32],
    ro: &mut [u32],
    co: &mut [u32],
    ls: &mut [u32],
    lc: &mut [u32],
    lv: &mut [u32],
    us: &mut [u32],
    uc: &mut [u32],
    uv: &mut [u32],
    work: &mut [u64],
) -> Progress
    requires { MarkedTurnReady q.p i place.now (stored_at starts.now cols.now vals.now) (storage_at ro.old co.old ls.old lc.old lv.old us.old uc.old uv.old work.old) from }
    ensures { TurnLeaves q.p i false (stored_before starts.now cols.now vals.now) (storage_before ro.old co.old ls.old lc.old lv.old us.old uc.old uv.old work.old) (storage_after ro.new co.new ls.new lc.new lv.new us.new uc.new uv.new work.new) from result }
{
    let r = from.r;
    let step = take_marked(
        q, starts, cols, vals, i as usize, r, from.at, from.l, from.total, co, us, place, lc, lv,
        uc, uv, work,
    );
    let m = work.len();
    settle(step, i, from, m, ro, co, ls, lc, lv, us)
}

// Takes the rows after the first s of `ro`, where the first s columns of `co` are the structural pivots.
pub fn find_others(
    q: Modulus,
    starts: &[u32],
    cols: &[u32],
    vals: &[u32],
    s: usize,
    from: Progress,
    ro: &mut [u32],
    co: &mut [u32],
    ls: &mut [u32],
    lc: &mut [u32],
    lv: &mut [u32],
    us: &mut [u32],
    uc: &mut [u32],
    uv: &mut [u32],
    work: &mut [u64],
) -> Pass
    requires { OthersReady q.p s (stored_at starts.now cols.now vals.now) (storage_at ro.old co.old ls.old lc.old lv.old us.old uc.old uv.old work.old) from }
    ensures { RowsTaken q.p s (stored_before starts.now cols.now vals.now) (storage_before ro.old co.old ls.old lc.old lv.old us.old uc.old uv.old work.old) (storage_after ro.new co.new ls.new lc.new lv.new us.new uc.new uv.new work.new) from result }
{
    let mut place = [2048u32; 2048];
    fill_places(s, co, &mut place);
    let mut progress = from;
    for k in s..ro.len() {
        let i = ro[k];
        let r = progress.r;
        progress = take_marked_row(
            q, starts, cols, vals, i, progress, &place, ro, co, ls, lc, lv, us, uc, uv, work,
        );
        let over = progress.over;
        if over {
            return Pass {
                stop: i,
                progress: progress,
            };
        }
        enter_place(r, progress.r, co, &mut place);
    }
    Pass {
        stop: 0,
        progress: progress,
    }
}

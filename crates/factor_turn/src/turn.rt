// One turn of the factoring: a row is taken, and entered in the orders where it is a pivot row; the row of L of a dependent row is kept.
ghost use Rattle.std.specs.Prelude.{◌≡◌, true, ◌+◌, ◌<◌, length, set};
ghost use Rattle.sparse.specs.Views.{stored_at, stored_before, stored_after, storage_at, storage_before, storage_after};
ghost use Rattle.factor_turn.specs.Turning.{Settled, TurnLeaves};
ghost use Rattle.factor_turn.specs.Needs.{SettleReady, TurnReady};

use crate::keeping::keep;
use factor_row::pivot_row::Step;
use factor_row::taking::take_pair;
use lists::index;
use residue::Modulus;

// How far the factoring is: whether the entries of a row did not fit, the pivots found, the entries of U stored, the entries of
// L's pivot rows, all entries of L, and the dependent rows found.
#[derive(Clone, Copy)]
pub struct Progress {
    pub over: bool,
    pub r: usize,
    pub at: usize,
    pub l: usize,
    pub total: usize,
    pub d: usize,
}

// Where a pass ended: the row whose entries did not fit, if there is one, and how far it came.
#[derive(Clone, Copy)]
pub struct Pass {
    pub stop: u32,
    pub progress: Progress,
}

// Enters pivot row i and column c as the next, and where the rows of L and of U end.
fn enter(
    r: usize,
    i: u32,
    c: u32,
    l: u32,
    at: u32,
    ro: &mut [u32],
    co: &mut [u32],
    ls: &mut [u32],
    us: &mut [u32],
)
    requires { (r < length ro.old) × (r < length co.old) × (r + 1 < length ls.old) × (r + 1 < length us.old) }
    ensures { (ro.new ≡ set ro.old r i) × (co.new ≡ set co.old r c) × (ls.new ≡ set ls.old (r + 1) l) × (us.new ≡ set us.old (r + 1) at) }
{
    ro[r] = i;
    co[r] = c;
    ls[r + 1] = l;
    us[r + 1] = at;
}

// Enters row i, or keeps its row of L where it is dependent, and says how far the factoring is, after a turn that came to `step`; m is the
// number of columns.
pub fn settle(
    step: Step,
    i: u32,
    from: Progress,
    m: usize,
    ro: &mut [u32],
    co: &mut [u32],
    ls: &mut [u32],
    lc: &mut [u32],
    lv: &mut [u32],
    us: &mut [u32],
) -> Progress
    requires { SettleReady step from m ro.old co.old (stored_at ls.old lc.old lv.old) us.old }
    ensures { Settled step i from m ro.old co.old (stored_before ls.old lc.old lv.old) us.old ro.new co.new (stored_after ls.new lc.new lv.new) us.new result }
{
    let over = step.over;
    let c = step.column;
    let at = step.at;
    let l = step.l;
    let total = step.total;
    let r = from.r;
    let d = from.d;
    if over {
        return Progress {
            over: true,
            r: r,
            at: at,
            l: l,
            total: total,
            d: d,
        };
    }
    if c == m {
        keep(l, from.total, total, d + 1, ls, lc, lv);
        return Progress {
            over: false,
            r: r,
            at: at,
            l: l,
            total: total,
            d: d + 1,
        };
    }
    enter(r, i, c as u32, l as u32, at as u32, ro, co, ls, us);
    Progress {
        over: false,
        r: r + 1,
        at: at,
        l: l,
        total: total,
        d: d,
    }
}

// Takes row i as it stands with column C[r], and enters it.
pub fn take_pair_row(
    q: Modulus,
    starts: &[u32],
    cols: &[u32],
    vals: &[u32],
    i: u32,
    from: Progress,
    ro: &mut [u32],
    co: &mut [u32],
    ls: &mut [u32],
    lc: &mut [u32],
    lv: &mut [u32],
    us: &mut [u32],
    uc: &mut [u32],
    uv: &mut [u32],
    work: &mut [u64],
) -> Progress
    requires { TurnReady q.p i true (stored_at starts.now cols.now vals.now) (storage_at ro.old co.old ls.old lc.old lv.old us.old uc.old uv.old work.old) from }
    ensures { TurnLeaves q.p i true (stored_before starts.now cols.now vals.now) (storage_before ro.old co.old ls.old lc.old lv.old us.old uc.old uv.old work.old) (storage_after ro.new co.new ls.new lc.new lv.new us.new uc.new uv.new work.new) from result }
{
    let r = from.r;
    let c = index(co[r]);
    let step = take_pair(
        q, starts, cols, vals, i as usize, c, r, from.at, from.l, from.total, lc, lv, uc, uv, work,
    );
    let m = work.len();
    settle(step, i, from, m, ro, co, ls, lc, lv, us)
}

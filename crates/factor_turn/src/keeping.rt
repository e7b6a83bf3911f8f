// The rows of L of dependent rows: kept at the end of L's lists, reversed, and turned round after the last turn.
ghost use Rattle.std.specs.Prelude.{◌≡◌, reverse, ◌<◌, length};
ghost use Rattle.elimination.specs.Pivots.{Found};
ghost use Rattle.sparse.specs.Views.{stored_at, stored_before, stored_after};
ghost use Rattle.factor_turn.specs.Keeping.{turned_part, Mirrored, PartReady, KeepReady, Kept, MoveReady, moved_from, FillReady, FillFrom, FillDone};

// Turns a list round that is zero but for its first and its last k numbers.
fn turn_round(list: &mut [u32], k: usize)
    requires { Mirrored k list.old }
    ensures { list.new ≡ reverse list.old }
{
    for t in 0..k {
        let u = list.len() - 1 - t;
        if u <= t {
            return;
        }
        list.swap(t, u);
    }
}

// The same of the part from place a up to place e.
fn turn_part(list: &mut [u32], a: usize, e: usize, k: usize)
    requires { PartReady a e k list.old }
    ensures { list.new ≡ turned_part a e list.old }
{
    let part = &mut list[a..e];
    turn_round(part, k);
}

// Keeps the row of L of a dependent row, the d-th, which stands at place l: L had `held` entries and has `total` with it.
pub fn keep(
    l: usize,
    held: usize,
    total: usize,
    d: usize,
    ls: &mut [u32],
    lc: &mut [u32],
    lv: &mut [u32],
)
    requires { KeepReady l held total d ls.old lc.old lv.old }
    ensures { Kept l held total d ls.old lc.old lv.old ls.new lc.new lv.new }
{
    let back = lc.len() - (held - l);
    let more = total - held;
    turn_part(lc, l, back, more);
    turn_part(lv, l, back, more);
    let place = ls.len() - d;
    ls[place] = (total - l) as u32;
}

// Adds l to every number from place a on.
fn add_from(list: &mut [u32], a: usize, l: u32)
    requires { MoveReady a l list.old }
    ensures { list.new ≡ moved_from a l list.old }
{
    for x in &mut list[a..] {
        *x += l;
    }
}

// Turns the rows of L that are at the end of its lists round, where they follow those of the r pivot rows, which have l entries; `total` are all.
pub fn turn_lower(r: usize, l: usize, total: usize, ls: &mut [u32], lc: &mut [u32], lv: &mut [u32])
    requires { FillReady (stored_at ls.old lc.old lv.old) r l total }
    ensures { (f : Found) → FillFrom f (stored_before ls.old lc.old lv.old) r l total → FillDone f (stored_after ls.new lc.new lv.new) }
{
    let n = lc.len();
    turn_part(lc, l, n, total - l);
    turn_part(lv, l, n, total - l);
    let a = r + 1;
    let e = ls.len();
    turn_part(ls, a, e, e - a);
    add_from(ls, a, l as u32);
}

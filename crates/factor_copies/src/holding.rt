// Rows are copied.
ghost use Rattle.std.specs.Prelude.{◌≡◌, true};
ghost use Rattle.sparse.specs.Views.{stored_at, stored_before};
ghost use Rattle.factor_copies.specs.Copies.{HoldReady, RowHeld};
ghost use Rattle.factor_copies.specs.Spreading.{SpreadReady, Spread, Worth, CopyRowReady, RowCopied};

use lists::{index, part};

// Puts the values of a row into the cells of its copy, which begins at place `at` with column `low` and is all zero.
fn spread(cols: &[u32], vals: &[u32], low: usize, at: usize, copies: &mut [u32])
    requires { SpreadReady low at cols.now vals.now copies.old }
    ensures { Spread low at cols.now vals.now copies.old copies.new }
{
    for (&column, &value) in cols.iter().zip(vals) {
        copies[at + (index(column) - low)] = value;
    }
}

// Whether a row of m cells is long, at least half of it from its first column on are entries, and its copy fits into `room`
// places. Above 2 ^ 16 cells are not added in runs.
fn is_worth(p: u32, cols: &[u32], m: usize, room: usize) -> bool
    ensures { result ≡ true → Worth p cols.now m room }
{
    if 65535 < p {
        return false;
    }
    let n = cols.len();
    if n < 16 {
        return false;
    }
    let low = index(cols[0]);
    if m < low {
        return false;
    }
    let width = m - low;
    if 2 * n < width {
        return false;
    }
    width <= room
}

// Copies a row as row r, from place `fill` on; gives the place after the copy.
fn copy_row(
    cols: &[u32],
    vals: &[u32],
    r: usize,
    m: usize,
    fill: usize,
    copies: &mut [u32],
) -> usize
    requires { CopyRowReady r m fill cols.now vals.now copies.old }
    ensures { RowCopied r m fill cols.now vals.now copies.old copies.new result }
{
    let low = index(cols[0]);
    copies[r] = fill as u32;
    copies[2048 + r] = low as u32;
    spread(cols, vals, low, fill, copies);
    fill + (m - low)
}

// Copies row r, the last of `found`, where a turn found it, if it is long and nearly full and there is room from place `fill` on;
// gives where the next copy may begin.
pub fn hold_row(
    p: u32,
    r: usize,
    found: usize,
    m: usize,
    fill: usize,
    starts: &[u32],
    cols: &[u32],
    vals: &[u32],
    copies: &mut [u32],
) -> usize
    requires { HoldReady p r found m fill (stored_at starts.now cols.now vals.now) copies.old }
    ensures { RowHeld p r found m fill (stored_before starts.now cols.now vals.now) copies.old copies.new result }
{
    if found <= r {
        return fill;
    }
    let a = index(starts[r]);
    let e = index(starts[r + 1]);
    let row = part(cols, a, e);
    if !is_worth(p, row, m, copies.len() - fill) {
        return fill;
    }
    copy_row(row, part(vals, a, e), r, m, fill, copies)
}

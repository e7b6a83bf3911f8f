// The test of the form of a stored matrix.
ghost use Rattle.std.specs.Prelude.{◌≡◌, true, ◌≤◌, length, drop};
ghost use Rattle.std.proofs.Math.Seq.{slice};
ghost use Rattle.sparse.specs.Form.{rises_from, starts_from, starts_ok, rows_from, values_ok};
ghost use Rattle.sparse.specs.Matrix.{form};

use crate::stored::Compressed;
use crate::words::Words;

// Whether the columns from place a up to place e rise strictly and are below width.
fn rises(cols: &Words, a: usize, e: usize, width: u32) -> bool
    requires { (a ≤ e) × (e ≤ length cols.now) }
    ensures { result ≡ rises_from width 0 (slice a e cols.now) }
{
    let mut low = 0;
    for i in a..e {
        let c = cols.at(i);
        if c < low {
            return false;
        }
        if width <= c {
            return false;
        }
        low = c + 1;
    }
    true
}

// Whether the row starts after the first, which is 0, never fall, and the last is total.
fn starts_from(starts: &Words, total: usize) -> bool
    requires { 1 ≤ length starts.now }
    ensures { result ≡ starts_from total 0 (drop 1 starts.now) }
{
    let mut from: u32 = 0;
    for i in 1..starts.len() {
        let s = starts.at(i);
        if s < from {
            return false;
        }
        from = s;
    }
    from as usize == total
}

// Whether all row starts have their form: the first is 0, and the last is total.
fn starts_ok(starts: &Words, total: usize) -> bool
    ensures { result ≡ starts_ok total starts.now }
{
    let n = starts.len();
    if n == 0 {
        return false;
    }
    let first = starts.at(0);
    if first != 0 {
        return false;
    }
    starts_from(starts, total)
}

// Whether the columns of every row rise strictly and are below width; the row starts are known to be right.
fn rows_ok(rows: &Compressed, width: u32) -> bool
    requires { starts_ok (length rows.now.cols) rows.now.starts ≡ true }
    ensures { result ≡ rows_from width rows.now.cols 0 (drop 1 rows.now.starts) }
{
    let mut from: usize = 0;
    for i in 1..rows.starts.len() {
        let s = rows.starts.at(i) as usize;
        if !rises(&rows.cols, from, s, width) {
            return false;
        }
        from = s;
    }
    true
}

// Whether every value is from 1 to p - 1.
fn values_ok(vals: &Words, p: u32) -> bool
    ensures { result ≡ values_ok p vals.now }
{
    for i in 0..vals.len() {
        let v = vals.at(i);
        if v == 0 {
            return false;
        }
        if p <= v {
            return false;
        }
    }
    true
}

// Whether a matrix of that width is stored in its form.
pub fn form_ok(rows: &Compressed, width: u32, p: u32) -> bool
    ensures { result ≡ form p width rows.now }
{
    let total = rows.cols.len();
    if !starts_ok(&rows.starts, total) {
        return false;
    }
    if rows.vals.len() != total {
        return false;
    }
    if !rows_ok(rows, width) {
        return false;
    }
    values_ok(&rows.vals, p)
}

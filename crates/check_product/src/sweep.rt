// The working row, tested for 0 and cleared. Where a row has touched few columns, only these are looked at.
ghost use Rattle.std.specs.Prelude.{◌≡◌, ◌&&◌, true, ◌+◌, ◌-◌, ◌%◌, ◌<◌, eqb, length, get_or};
ghost use Rattle.check_product.specs.Sweep.{Among, AmongRows, Swept, TestedAndCleared};
ghost use Rattle.check_product.specs.Needs.{StartsRise, CountsRows, SweepsRow, SweepsRows, ClearsTouched};

use crate::index_at;
use lists::index;
use residue::Modulus;
use sparse::stored::Compressed;
use sparse::words::Words;

// Whether all cells so far stood for 0, and this one does. Most cells are 0: those are not divided.
fn still_zero(q: Modulus, zero: bool, x: u64) -> bool
    requires { 0 < q.p }
    ensures { result ≡ (zero && eqb (x % q.p) 0) }
{
    if !zero {
        return false;
    }
    q.reduce_cell(x) == 0
}

// Whether every cell stands for 0; all cells are set to 0.
fn zero_and_clear(q: Modulus, work: &mut [u64]) -> bool
    requires { 0 < q.p }
    ensures { TestedAndCleared q.p work.old work.new result }
{
    let mut zero = true;
    for x in work.iter_mut() {
        zero = still_zero(q, zero, *x);
        *x = 0;
    }
    zero
}

// Whether all cells so far stood for 0, and those at the columns of a row do; these are set to 0.
fn sweep_row(q: Modulus, cols: &Words, zero: bool, work: &mut [u64]) -> bool
    requires { SweepsRow q.p cols.now work.old }
    ensures { Swept q.p (Among cols.now) zero work.old work.new result }
{
    let mut so_far = zero;
    for t in 0..cols.len() {
        let j = index_at(cols, t);
        so_far = still_zero(q, so_far, work[j]);
        work[j] = 0;
    }
    so_far
}

// Whether the cells at the columns of the rows of U that a row of L names all stand for 0; these are set to 0. A cell
// that is met again is 0 by then, which changes nothing.
fn sweep_rows(q: Modulus, ks: &Words, u: &Compressed, work: &mut [u64]) -> bool
    requires { SweepsRows q.p ks.now u.now.starts u.now.cols work.old }
    ensures { Swept q.p (AmongRows ks.now u.now.starts u.now.cols) true work.old work.new result }
{
    let mut zero = true;
    for t in 0..ks.len() {
        let k = index_at(ks, t);
        let a = index(u.starts.at(k));
        let e = index(u.starts.at(k + 1));
        zero = sweep_row(q, &u.cols.part(a, e), zero, work);
    }
    zero
}

// How many entries row k has.
pub fn row_length(starts: &Words, k: usize) -> usize
    requires { (k + 1 < length starts.now) × StartsRise starts.now }
    ensures { result ≡ get_or starts.now (k + 1) 0 - get_or starts.now k 0 }
{
    let from = index(starts.at(k));
    index(starts.at(k + 1)) - from
}

// Whether the rows of U that a row of L names, and `own` entries more, have fewer entries together than the limit.
// It counts down, and ends where nothing is left. The answer only chooses the shorter of two ways to one result: the
// contract says nothing of it.
fn touches_few(ks: &Words, starts: &Words, own: usize, limit: usize) -> bool
    requires { CountsRows ks.now starts.now }
{
    let mut left = limit;
    for t in 0..ks.len() {
        let k = index_at(ks, t);
        let entries = row_length(starts, k);
        if left <= entries {
            return false;
        }
        left -= entries;
    }
    own < left
}

// Whether every cell stands for 0; all cells are set to 0. Only the columns of a row of A and of the rows of U that a row
// of L names can be other than 0: they alone are swept, where they are few. Going through all cells in order takes about
// a quarter of the time for each cell that single columns take.
pub fn clear_touched(q: Modulus, cols: &Words, ks: &Words, u: &Compressed, work: &mut [u64]) -> bool
    requires { ClearsTouched q.p cols.now ks.now u.now.starts u.now.cols work.old }
    ensures { TestedAndCleared q.p work.old work.new result }
{
    let own = cols.len();
    if !touches_few(ks, &u.starts, own, work.len() / 4) {
        return zero_and_clear(q, work);
    }
    let zero = sweep_rows(q, ks, u, work);
    sweep_row(q, cols, zero, work)
}

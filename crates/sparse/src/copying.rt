// A sparse row copied from list to list: as many steps as it has entries, however wide it is.
ghost use Rattle.sparse.specs.Copying.{CopyReady, Copied};

use residue::Modulus;

// Copies the sparse row with columns rc and values rv, times c, to the place `at` of two lists; gives the next place. The
// columns stay as they are: where p is prime and c is not 0, no product is 0.
pub fn copy_scaled(
    q: Modulus,
    c: u32,
    rc: &[u32],
    rv: &[u32],
    at: usize,
    cols: &mut [u32],
    vals: &mut [u32],
) -> usize
    requires { CopyReady q.p c at rc.now rv.now cols.old vals.old }
    ensures { Copied q.p c at rc.now rv.now cols.old vals.old cols.new vals.new result }
{
    for t in 0..rc.len() {
        let v = rv[t];
        let product = q.multiply(c, v);
        cols[at + t] = rc[t];
        vals[at + t] = product;
    }
    at + rc.len()
}

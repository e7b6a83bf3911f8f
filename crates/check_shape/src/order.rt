// The test for a permutation, by marks in the working row.
ghost use Rattle.std.specs.Prelude.{◌≡◌, ◌≤◌, length};
ghost use Rattle.lists.specs.Filled.{zeros};
ghost use Rattle.pluq.specs.Order.{permutation};

use lists::clear_row;
use sparse::words::Words;

// Marks the cell of each number, up to the first that is not below n or is marked already.
fn mark_all(list: &Words, n: usize, mark: &mut [u64]) -> bool
    requires { (n ≡ length list.now) × (n ≤ length mark.old) × (mark.old ≡ zeros (length mark.old)) }
    ensures { result ≡ permutation list.now }
{
    for i in 0..n {
        let v = list.at(i) as usize;
        if n <= v {
            return false;
        }
        if mark[v] != 0 {
            return false;
        }
        mark[v] = 1;
    }
    true
}

// Whether the numbers are a permutation; the mark row is all zero before and after.
pub fn is_permutation(list: &Words, mark: &mut [u64]) -> bool
    requires { (length list.now ≤ length mark.old) × (mark.old ≡ zeros (length mark.old)) }
    ensures { (result ≡ permutation list.now) × (mark.new ≡ mark.old) }
{
    let n = list.len();
    let ok = mark_all(list, n, mark);
    clear_row(mark);
    ok
}

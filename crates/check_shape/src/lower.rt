// The shape of L: by the last column of each row.
ghost use Rattle.std.specs.Prelude.{◌≡◌, ◌<◌};
ghost use Rattle.sparse.specs.Matrix.{matrix};
ghost use Rattle.pluq.specs.Shape.{lower_row, lower};
ghost use Rattle.check_shape.specs.Needs.{Rows};

use lists::index;
use sparse::stored::Compressed;

// Whether the last column of row k is k.
fn lower_row(l: &Compressed, p: u32, r: usize, k: usize) -> bool
    requires { (k < r) × Rows p r r l.now }
    ensures { result ≡ lower_row r (matrix l.now k) k }
{
    let a = index(l.starts.at(k));
    let e = index(l.starts.at(k + 1));
    if e <= a {
        return false;
    }
    index(l.cols.at(e - 1)) == k
}

// Whether L has its shape.
pub fn lower_ok(l: &Compressed, p: u32, r: usize) -> bool
    requires { Rows p r r l.now }
    ensures { result ≡ lower r (matrix l.now) }
{
    for k in 0..r {
        if !lower_row(l, p, r, k) {
            return false;
        }
    }
    true
}

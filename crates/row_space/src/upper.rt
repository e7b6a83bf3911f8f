// z by substitution through U, from its last row up.
ghost use Rattle.std.specs.Prelude.{◌≡◌, length};
ghost use Rattle.algebra.specs.Matrix.{vector};
ghost use Rattle.sparse.specs.Matrix.{matrix};
ghost use Rattle.row_space.specs.Substitution.{missing, through_u};
ghost use Rattle.row_space.specs.Needs.{UpperRowReady, UpperReady};

use lists::index;
use residue::Modulus;
use sparse::dense::dot;
use sparse::stored::Compressed;
use sparse::words::Words;

// What row k of a stored matrix times z lacks to be 0.
pub fn missing_value(q: Modulus, u: &Compressed, k: usize, z: &[u32]) -> u32
    requires { UpperRowReady q.p k u.now z.now }
    ensures { result ≡ missing q.p (length z.now) (matrix u.now k) (vector z.now) }
{
    q.negate(dot(q, &u.row(k), z))
}

// U z = 0: the pivot cells of z are filled.
pub fn solve_upper(q: Modulus, u: &Compressed, co: &Words, r: usize, z: &mut [u32])
    requires { UpperReady q.p r u.now co.now z.old }
    ensures { z.new ≡ through_u q.p (length z.old) r (vector co.now) (matrix u.now) (vector z.old) }
{
    for k in (0..r).rev() {
        let t = index(co.at(k));
        z[t] = missing_value(q, u, k, z);
    }
}

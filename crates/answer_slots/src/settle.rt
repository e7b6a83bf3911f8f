// A setting by substitution through U, from its last row up.
ghost use Rattle.std.specs.Prelude.{◌≡◌, length};
ghost use Rattle.lists.specs.Tabulate.{tabulate};
ghost use Rattle.algebra.specs.Matrix.{vector};
ghost use Rattle.sparse.specs.Matrix.{matrix};
ghost use Rattle.column_space.specs.Substitution.{settle};
ghost use Rattle.answer_slots.specs.Needs.{UpperValuesReady};

use crate::lacking::lacking_value;
use lists::index;
use residue::Modulus;
use sparse::stored::Compressed;
use sparse::words::Words;

// U s = t: the pivot cells of s are filled.
pub fn settle(q: Modulus, u: &Compressed, co: &Words, t: &[u32], s: &mut [u32])
    requires { UpperValuesReady q.p u.now co.now t.now s.old }
    ensures { s.new ≡ tabulate (length s.old) (settle q.p (length s.old) (vector co.now) (matrix u.now) (vector t.now) (length t.now) (vector s.old)) }
{
    for k in (0..t.len()).rev() {
        let c = index(co.at(k));
        s[c] = lacking_value(q, u, k, s, t[k]);
    }
}

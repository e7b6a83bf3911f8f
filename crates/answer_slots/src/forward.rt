// t by substitution through L, from its first row down.
ghost use Rattle.std.specs.Prelude.{◌*◌, ◌%◌, ◌≡◌, length};
ghost use Rattle.lists.specs.Tabulate.{tabulate};
ghost use Rattle.algebra.specs.Matrix.{vector};
ghost use Rattle.residue.specs.Arithmetic.{Residue};
ghost use Rattle.residue.specs.Inverse.{inv_mod};
ghost use Rattle.sparse.specs.Matrix.{matrix};
ghost use Rattle.column_space.specs.Substitution.{lacking, forward};
ghost use Rattle.column_space.specs.Slots.{in_order};
ghost use Rattle.answer_slots.specs.Needs.{ForwardRowReady, ForwardReady};

use crate::lacking::lacking_value;
use lists::index;
use residue::Modulus;
use row_space::lower::inverse_diagonal;
use sparse::stored::Compressed;
use sparse::words::Words;

// The value of row k: what d has over row k of L times the values before it, divided by the diagonal entry.
// The cells of t from k on are 0, so that the whole row counts.
fn forward_value(q: Modulus, l: &Compressed, k: usize, d: u32, t: &[u32]) -> u32
    requires { ForwardRowReady q.p k d l.now t.now }
    ensures { Residue q.p ((lacking q.p (length t.now) (matrix l.now k) (vector t.now) d * inv_mod q.p (matrix l.now k k)) % q.p) result }
{
    let lacking = lacking_value(q, l, k, t, d);
    q.multiply(lacking, inverse_diagonal(q, l, k))
}

// L t = d on the first rows, where d[k] is the slot value at R[k].
pub fn forward(q: Modulus, l: &Compressed, ro: &Words, h: &[u32], t: &mut [u32])
    requires { ForwardReady q.p l.now ro.now h.now t.old }
    ensures { t.new ≡ tabulate (length t.old) (forward q.p (matrix l.now) (length t.old) (in_order (vector ro.now) (vector h.now))) }
{
    for k in 0..t.len() {
        let slot = index(ro.at(k));
        t[k] = forward_value(q, l, k, h[slot], t);
    }
}

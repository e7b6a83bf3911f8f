// What a number has over a row times a list of values.
ghost use Rattle.std.specs.Prelude.{◌≡◌, length};
ghost use Rattle.algebra.specs.Matrix.{vector};
ghost use Rattle.sparse.specs.Matrix.{matrix};
ghost use Rattle.column_space.specs.Substitution.{lacking};
ghost use Rattle.answer_slots.specs.Needs.{LackingReady};

use residue::Modulus;
use row_space::upper::missing_value;
use sparse::stored::Compressed;

// d less row k of a stored matrix times z.
pub fn lacking_value(q: Modulus, rows: &Compressed, k: usize, z: &[u32], d: u32) -> u32
    requires { LackingReady q.p k d rows.now z.now }
    ensures { result ≡ lacking q.p (length z.now) (matrix rows.now k) (vector z.now) d }
{
    q.add(d, missing_value(q, rows, k, z))
}

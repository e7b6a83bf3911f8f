// The kernel by its free columns, in the lent list; the working row is used for the marks.
ghost use Rattle.std.specs.Prelude.{length};
ghost use Rattle.answer_kernel.specs.Filling.{free_settings, BasisFilled};
ghost use Rattle.answer_kernel.specs.Needs.{BasisReady};

use crate::marks::mark_pivots;
use crate::settings::fill_settings;
use lists::clear_row;
use residue::Modulus;
use sparse::stored::Compressed;
use sparse::words::Words;

// The settings of all free columns; the working row is left all zero.
pub fn basis(q: Modulus, u: &Compressed, co: &Words, r: usize, basis: &mut [u32], work: &mut [u64])
    requires { BasisReady q.p r u.now co.now basis.old work.old }
    ensures { BasisFilled (free_settings q.p (length work.old) r co.now u.now) basis.new work.new }
{
    mark_pivots(co, r, work);
    fill_settings(q, u, co, r, basis, work);
    clear_row(work);
}

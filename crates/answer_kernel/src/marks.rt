// The pivot columns, marked in the working row.
ghost use Rattle.std.specs.Prelude.{take};
ghost use Rattle.answer_kernel.specs.Filling.{Marked};
ghost use Rattle.answer_kernel.specs.Needs.{MarksReady};

use lists::index;
use sparse::words::Words;

// Marks the first r columns of the order C in the working row, which is all zero.
pub fn mark_pivots(co: &Words, r: usize, work: &mut [u64])
    requires { MarksReady r co.now work.old }
    ensures { Marked (take r co.now) work.new }
{
    for k in 0..r {
        let c = index(co.at(k));
        work[c] = 1;
    }
}

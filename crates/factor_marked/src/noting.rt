// The columns of a stored row are marked.
ghost use Rattle.sparse.specs.Matrix.{row_of};
ghost use Rattle.factor_touch.specs.Touched.{Noted};
ghost use Rattle.factor_marked.specs.Needs.{NoteRowReady};

use factor_touch::marks::note_row;
use lists::{index, part};

// Marks the blocks of the columns of row k, and of the pivots whose columns they are; gives whether all blocks are marked.
pub fn note_stored_row(
    full: bool,
    starts: &[u32],
    cols: &[u32],
    k: usize,
    place: &[u32],
    touched: &mut [u8],
    pending: &mut [u8],
) -> bool
    requires { NoteRowReady full k starts.now cols.now place.now touched.old pending.old }
    ensures { Noted (row_of starts.now k cols.now) place.now touched.old pending.old touched.new pending.new result }
{
    let a = index(starts[k]);
    let e = index(starts[k + 1]);
    note_row(full, part(cols, a, e), place, touched, pending)
}

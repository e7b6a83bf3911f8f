// The marks of the blocks of sixteen, of cells of the working row and of pivots, in which something may stand.
ghost use Rattle.std.specs.Prelude.{false};
ghost use Rattle.factor_touch.specs.Touched.{free_block, pivot_block, ColumnsMarked, NoteReady, Noted};
ghost use Rattle.factor_touch.specs.Marking.{EachMarked};

use lists::index;

// Marks the blocks of the cells and of the pivots of a row's columns. The cell of a pivot column is 0 once the row is reduced: all
// these cells share one block.
fn mark_row(cols: &[u32], place: &[u32], touched: &mut [u8], pending: &mut [u8])
    requires { NoteReady false cols.now place.now touched.old pending.old }
    ensures { ColumnsMarked (free_block place.now) cols.now touched.old touched.new × ColumnsMarked (pivot_block place.now) cols.now pending.old pending.new }
{
    for &column in cols {
        let j = index(column);
        let k = index(place[j]);
        let b = if k == 2048 { j / 16 } else { 128 };
        touched[b] = 1;
        pending[k / 16] = 1;
    }
}

// Marks every block.
fn mark_all(marks: &mut [u8])
    ensures { EachMarked marks.old marks.new }
{
    marks.fill(1);
}

// Marks the blocks of the cells and of the pivots of a row's columns, or every block where the row has many columns; gives
// whether every block is marked, as `full` does before.
pub fn note_row(
    full: bool,
    cols: &[u32],
    place: &[u32],
    touched: &mut [u8],
    pending: &mut [u8],
) -> bool
    requires { NoteReady full cols.now place.now touched.old pending.old }
    ensures { Noted cols.now place.now touched.old pending.old touched.new pending.new result }
{
    if full {
        return true;
    }
    if cols.len() < 16 {
        mark_row(cols, place, touched, pending);
        return false;
    }
    mark_all(touched);
    mark_all(pending);
    true
}

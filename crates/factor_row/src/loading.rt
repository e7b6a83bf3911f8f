// Rows of the stored matrix in the working row.
ghost use Rattle.std.specs.Prelude.{◌≡◌, length};
ghost use Rattle.lists.specs.Tabulate.{tabulate};
ghost use Rattle.sparse.specs.Views.{stored_at};
ghost use Rattle.factor_row.specs.Entries.{row_before};
ghost use Rattle.factor_row.specs.Needs.{RowLoadable};

use sparse::dense::load;
use sparse::stored::Compressed;

// Puts row i of the matrix into the working row, which is all zero.
pub fn load_row(starts: &[u32], cols: &[u32], vals: &[u32], i: usize, p: u32, work: &mut [u64])
    requires { RowLoadable p i (stored_at starts.now cols.now vals.now) work.old }
    ensures { work.new ≡ tabulate (length work.old) (row_before starts.now cols.now vals.now i) }
{
    let matrix = Compressed::stored(starts, cols, vals);
    load(&matrix.row(i), p, work);
}

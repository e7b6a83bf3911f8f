// Rows of a stored matrix as lists of columns, for what looks at where entries stand and not at their values.
#![tactic(auto)]

ghost use Rattle.std.specs.Prelude.{◌≡◌};
ghost use Rattle.sparse.specs.Matrix.{row_of};
ghost use Rattle.factor_names.specs.Sized.{RowWithin};

use lists::index;

// The columns of row i.
pub fn columns_of<'a>(starts: &[u32], cols: &'a [u32], i: usize) -> &'a [u32]
    requires { RowWithin starts.now cols.now i }
    ensures { result.now ≡ row_of starts.now i cols.now }
{
    let start = index(starts[i]);
    let end = index(starts[i + 1]);
    lists::part(cols, start, end)
}

// A matrix by compressed rows, and the parts that its rows are.
ghost use Rattle.std.specs.Prelude.{◌≡◌};
ghost use Rattle.sparse.specs.Matrix.{compressed};
ghost use Rattle.sparse.specs.Part.{HasRow, PartOf};

use crate::words::Words;
use lists::index;

// A sparse row: its columns and as many values.
#[derive(Drop)]
pub struct SparseRow<'a> {
    pub cols: Words<'a>,
    pub vals: Words<'a>,
}

// A matrix by compressed rows: row starts, columns and values (document 01's plan, L or U).
#[derive(Drop)]
pub struct Compressed<'a> {
    pub starts: Words<'a>,
    pub cols: Words<'a>,
    pub vals: Words<'a>,
}

impl<'a> Compressed<'a> {
    // A matrix in three stored lists.
    pub fn stored(starts: &'a [u32], cols: &'a [u32], vals: &'a [u32]) -> Compressed<'a>
        ensures { result ≡ compressed starts.entry.now cols.entry.now vals.entry.now }
    {
        Compressed {
            starts: Words::stored(starts),
            cols: Words::stored(cols),
            vals: Words::stored(vals),
        }
    }

    // Row k: the parts of the columns and the values that belong to it. A hint puts it into its callers, where the compiler sees what
    // of the parts is used.
    #[inline(always)]
    pub fn row(&self, k: usize) -> SparseRow<'a>
        requires { HasRow k self.now }
        ensures { PartOf k self.now result }
    {
        let a = index(self.starts.at(k));
        let e = index(self.starts.at(k + 1));
        SparseRow {
            cols: self.cols.part(a, e),
            vals: self.vals.part(a, e),
        }
    }
}

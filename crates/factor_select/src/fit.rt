// The columns that a row may still take.
ghost use Rattle.std.specs.Prelude.{◌≡◌, ◌&&◌, not, eqb};
ghost use Rattle.factor_select.specs.Search.{NextFit};
ghost use Rattle.factor_select.specs.Needs.{FitReady};

use lists::index;

// Whether a column is neither used nor stamped.
fn is_fit(cell: u64, stamp: u32, mark: u32) -> bool
    ensures { result ≡ (eqb cell 0 && not (eqb stamp mark)) }
{
    if cell != 0 {
        return false;
    }
    stamp != mark
}

// The first place of a row, from a place on, whose column is neither used nor stamped; past the row's end where there is none.
pub fn next_fit(row: &[u32], work: &[u64], mark: u32, stamps: &[u32], from: usize) -> usize
    requires { FitReady row.now work.now stamps.now }
    ensures { NextFit row.now work.now stamps.now mark from result }
{
    for t in from..row.len() {
        let j = index(row[t]);
        if is_fit(work[j], stamps[j], mark) {
            return t;
        }
    }
    row.len()
}

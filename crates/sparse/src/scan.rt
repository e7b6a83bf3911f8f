// Passing over cells that are 0, eight at a time: most cells of a working row are.
ghost use Rattle.std.specs.Prelude.{◌+◌, ◌≤◌, length};
ghost use Rattle.sparse.specs.Scan.{ZeroRun, NextNonzero};

// How many of the eight cells from place j on are 0 before the first that is not.
fn zeros_of_eight(row: &[u64], j: usize) -> usize
    requires { j + 8 ≤ length row.now }
    ensures { ZeroRun row.now j result }
{
    if row[j] != 0 {
        return 0;
    }
    if row[j + 1] != 0 {
        return 1;
    }
    if row[j + 2] != 0 {
        return 2;
    }
    if row[j + 3] != 0 {
        return 3;
    }
    if row[j + 4] != 0 {
        return 4;
    }
    if row[j + 5] != 0 {
        return 5;
    }
    if row[j + 6] != 0 {
        return 6;
    }
    if row[j + 7] != 0 {
        return 7;
    }
    8
}

// The first place from `from` on whose cell is not 0, or the length; cell by cell.
fn next_by_one(row: &[u64], from: usize) -> usize
    requires { from ≤ length row.now }
    ensures { NextNonzero row.now from result }
{
    for j in from..row.len() {
        if row[j] != 0 {
            return j;
        }
    }
    row.len()
}

// The same; cell by cell only where fewer than eight are left.
pub fn next_nonzero(row: &[u64], from: usize) -> usize
    requires { from ≤ length row.now }
    ensures { NextNonzero row.now from result }
{
    let mut j = from;
    // A while: the step is not one.
    while 8 <= row.len() - j {
        let run = zeros_of_eight(row, j);
        j += run;
        if run < 8 {
            return j;
        }
    }
    next_by_one(row, j)
}

// The lent lists are filled entry by entry.
ghost use Rattle.std.specs.Prelude.{◌≡◌, List, ◌≤◌, ◌<◌, length};
ghost use Rattle.limits.specs.Limits.{starts_length};
ghost use Rattle.text_opening.specs.Reading.{Entry};
ghost use Rattle.text_plan.specs.Stored.{RowsWithin, starts_of};
ghost use Rattle.text_plan.specs.Needs.{Storable, AddsEntry};
ghost use Rattle.text_plan.specs.Collect.{triple_of};
ghost use Rattle.sparse.specs.Views.{stored_before, stored_after};

// The starts after the rows `from` + 1 to `to`, which have no entry: all entries stand before them.
pub fn extend_starts(starts: &mut [u32], from: usize, to: usize, count: u32)
    requires { (from ≤ to) × (to < starts_length) × (length starts.old ≡ starts_length) }
    ensures { (es : List Entry) → RowsWithin from es → count ≡ length es → starts.old ≡ starts_of from es → starts.new ≡ starts_of to es }
{
    for k in from..to {
        starts[k + 1] = count;
    }
}

// One entry more, in a row that is not before `row`, the last one so far. A value of 0 is not stored.
pub fn store(
    starts: &mut [u32],
    cols: &mut [u32],
    vals: &mut [u32],
    count: u32,
    row: u64,
    i: u64,
    j: u64,
    v: u32,
) -> u32
    requires { Storable (length starts.old) (length cols.old) (length vals.old) count row i j v }
    ensures { AddsEntry (triple_of i j v) row count (stored_before starts.old cols.old vals.old) result (stored_after starts.new cols.new vals.new) }
{
    let top = i as usize;
    extend_starts(starts, row as usize, top, count);
    if v == 0 {
        return count;
    }
    let at = lists::index(count);
    starts[top] = count + 1;
    cols[at] = (j - 1) as u32;
    vals[at] = v;
    count + 1
}

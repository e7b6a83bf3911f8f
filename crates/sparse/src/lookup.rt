// The entry of a sparse row at a column.
ghost use Rattle.std.specs.Prelude.{◌≡◌};
ghost use Rattle.sparse.specs.Row.{entry};
ghost use Rattle.sparse.specs.Copying.{LookupReady};

// The value stored at column j, or 0. The search ends at the column: a row's first column costs one step.
pub fn value_at(cols: &[u32], vals: &[u32], j: u32) -> u32
    requires { LookupReady cols.now vals.now }
    ensures { result ≡ entry cols.now vals.now j }
{
    match cols.iter().position(|&col| col == j) {
        Some(t) => vals[t],
        None => 0,
    }
}

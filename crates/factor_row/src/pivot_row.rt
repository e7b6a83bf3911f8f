// How far the factors are after a row, and whether the entries of one row more fit.
ghost use Rattle.std.specs.Prelude.{◌≡◌, ◌&&◌, ◌+◌, ◌≤◌, leb};

// How far the factors are after a row: whether its entries did not fit, its pivot column (the length of the working row where it
// is dependent), the entries of U stored, the entries of L's pivot rows, and all entries of L.
#[derive(Clone, Copy)]
pub struct Step {
    pub over: bool,
    pub column: usize,
    pub at: usize,
    pub l: usize,
    pub total: usize,
}

// Whether one entry more of L and k entries more of U fit.
pub fn fits(lower: usize, total: usize, upper: usize, at: usize, k: usize) -> bool
    requires { (total ≤ lower) × (at ≤ upper) }
    ensures { result ≡ (leb (total + 1) lower && leb (at + k) upper) }
{
    if lower == total {
        return false;
    }
    k <= upper - at
}

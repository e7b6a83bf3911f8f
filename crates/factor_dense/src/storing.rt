// What a row that was reduced in the block leaves: its multiples as entries of L, and the row divided by its pivot.
ghost use Rattle.std.specs.Prelude.{◌≡◌, ◌%◌, ◌<◌, eqb, get_or, take};
ghost use Rattle.lists.specs.Tests.{first};
ghost use Rattle.factor_dense.specs.Storing.{EntryStored, MultiplesStored, LeftStored, RowScaled};
ghost use Rattle.factor_dense.specs.Needs.{PlaceReady, StoreMultiplesReady, LeftReady};

use factor_reduce::gather::Gathered;
use lists::index;
use residue::Modulus;
use sparse::dense::first_nonzero;

// Stores x at column k and place `at`, unless it is 0 or the places up to `limit` are used up.
pub fn store_entry(
    k: usize,
    x: u32,
    at: usize,
    limit: usize,
    lc: &mut [u32],
    lv: &mut [u32],
) -> Gathered
    requires { PlaceReady k at limit lc.old lv.old }
    ensures { EntryStored k x at limit lc.old lv.old lc.new lv.new result.over result.next }
{
    if x == 0 {
        return Gathered {
            over: false,
            next: at,
        };
    }
    if at == limit {
        return Gathered {
            over: true,
            next: at,
        };
    }
    lc[at] = k as u32;
    lv[at] = x;
    Gathered {
        over: false,
        next: at + 1,
    }
}

// Stores the first b multiples from place l on, that of block row t at column s + t.
pub fn store_multiples(
    xs: [u32; 32],
    b: usize,
    s: usize,
    l: usize,
    limit: usize,
    lc: &mut [u32],
    lv: &mut [u32],
) -> Gathered
    requires { StoreMultiplesReady s b l limit lc.old lv.old }
    ensures { MultiplesStored s l limit (take b xs) lc.old lv.old lc.new lv.new result.over result.next }
{
    let mut next = l;
    for (t, &x) in xs[..b].iter().enumerate() {
        let g = store_entry(s + t, x, next, limit, lc, lv);
        let over = g.over;
        next = g.next;
        if over {
            return Gathered {
                over: true,
                next: next,
            };
        }
    }
    Gathered {
        over: false,
        next: next,
    }
}

// Stores the first cells of a block row from place l on, each under its own column.
pub fn store_left(
    js: [u32; 32],
    row: [u32; 32],
    width: usize,
    l: usize,
    limit: usize,
    uc: &mut [u32],
    uv: &mut [u32],
) -> Gathered
    requires { LeftReady width l limit js uc.old uv.old }
    ensures { LeftStored l limit (take width js) (take width row) uc.old uv.old uc.new uv.new result.over result.next }
{
    let mut next = l;
    for (&column, &x) in js[..width].iter().zip(&row[..width]) {
        let g = store_entry(index(column), x, next, limit, uc, uv);
        let over = g.over;
        next = g.next;
        if over {
            return Gathered {
                over: true,
                next: next,
            };
        }
    }
    Gathered {
        over: false,
        next: next,
    }
}

// The first cell that stands for a residue other than 0; 32 where there is none.
pub fn first_left(q: Modulus, row: [u64; 32]) -> usize
    requires { 0 < q.p }
    ensures { result ≡ first 32 (λ l. eqb (get_or row l 0 % q.p) 0) }
{
    first_nonzero(q, &row)
}

// The residues that the cells stand for, each times c: with the inverse of its pivot, the row that replaces a block row.
pub fn scale_row(q: Modulus, c: u32, row: [u64; 32]) -> [u32; 32]
    requires { c < q.p }
    ensures { RowScaled q.p c row result }
{
    let mut out = [0u32; 32];
    for (l, &cell) in row.iter().enumerate() {
        out[l] = q.multiply(c, q.reduce_cell(cell));
    }
    out
}

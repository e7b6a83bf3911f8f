// A row less multiples of the rows of U, row after row: each takes the value at its own pivot column away. The multiples are
// stored as they are found, so that the pivot columns are gone through once.
ghost use Rattle.std.specs.Prelude.{◌%◌, length, get_or};
ghost use Rattle.sparse.specs.Matrix.{matrix};
ghost use Rattle.sparse.specs.Views.{stored_at, stored_before};
ghost use Rattle.factor_reduce.specs.InPlace.{MultipleTaken};
ghost use Rattle.factor_reduce.specs.Needs.{StepReady, EntryReady, GatherReady};
ghost use Rattle.factor_reduce.specs.Gathering.{EntryGathered, MultiplesGathered};

use lists::index;
use residue::Modulus;
use sparse::kernel::subtract_list_row;

// Whether the multiples of a row did not fit, and the place after them.
#[derive(Clone, Copy)]
pub struct Gathered {
    pub over: bool,
    pub next: usize,
}

// work - x U[k], where x is the residue at column c, at which U[k] is 1; gives x. Cell c is set to 0 itself, so that no later
// pass divides it, and a row of which nothing is to be taken away is not gone through.
fn take_multiple(
    q: Modulus,
    us: &[u32],
    uc: &[u32],
    uv: &[u32],
    k: usize,
    c: usize,
    work: &mut [u64],
) -> u32
    requires { StepReady q.p k c (stored_at us.now uc.now uv.now) work.old }
    ensures { MultipleTaken q.p c (matrix (stored_before us.now uc.now uv.now) k) work.old work.new result }
{
    let x = q.reduce(work[c]);
    if x != 0 {
        subtract_list_row(q, us, uc, uv, k, x, work);
    }
    work[c] = 0;
    x
}

// Takes the multiple of row k away and stores it at place `at`, unless it is 0 or the places up to `limit` are used up.
fn gather_step(
    q: Modulus,
    us: &[u32],
    uc: &[u32],
    uv: &[u32],
    k: usize,
    c: usize,
    at: usize,
    limit: usize,
    work: &mut [u64],
    lc: &mut [u32],
    lv: &mut [u32],
) -> Gathered
    requires { EntryReady q.p k c (stored_at us.now uc.now uv.now) at limit work.old lc.old lv.old }
    ensures { EntryGathered q.p k c (matrix (stored_before us.now uc.now uv.now) k) (get_or work.old c 0 % q.p) at limit work.old lc.old lv.old work.new lc.new lv.new result.over result.next }
{
    let x = take_multiple(q, us, uc, uv, k, c, work);
    if x == 0 {
        return Gathered {
            over: false,
            next: at,
        };
    }
    if at == limit {
        return Gathered {
            over: true,
            next: at,
        };
    }
    lc[at] = k as u32;
    lv[at] = x;
    Gathered {
        over: false,
        next: at + 1,
    }
}

// Reduces the row that stands in `work` by all rows of U, as many as `co` has pivot columns, and stores the multiples from place
// l on, that of row k at column k. The remainder is left in `work`. Most rows have a 0 at most pivot columns: those cost a test.
pub fn gather_multiples(
    q: Modulus,
    us: &[u32],
    uc: &[u32],
    uv: &[u32],
    co: &[u32],
    l: usize,
    limit: usize,
    work: &mut [u64],
    lc: &mut [u32],
    lv: &mut [u32],
) -> Gathered
    requires { GatherReady q.p co.now (stored_at us.now uc.now uv.now) l limit work.old lc.old lv.old }
    ensures { MultiplesGathered q.p (length work.old) co.now (stored_before us.now uc.now uv.now) (λ j. get_or work.old j 0 % q.p) l limit lc.old lv.old lc.new lv.new work.new result.over result.next }
{
    let mut next = l;
    for (k, &column) in co.iter().enumerate() {
        let c = index(column);
        if work[c] != 0 {
            let g = gather_step(q, us, uc, uv, k, c, next, limit, work, lc, lv);
            if g.over {
                return g;
            }
            next = g.next;
        }
    }
    Gathered { over: false, next }
}

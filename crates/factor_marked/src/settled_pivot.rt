// A settled row that is not zero becomes a pivot row.
ghost use Rattle.std.specs.Prelude.{◌≡◌};
ghost use Rattle.factor_row.specs.Entries.{entries_at, entries_before, entries_after};
ghost use Rattle.factor_row.specs.PivotRow.{PivotOutcome};
ghost use Rattle.factor_marked.specs.Needs.{SettledPivotReady};

use factor_row::pivot_row::{Step, fits};
use factor_touch::settling::store_settled;
use residue::Modulus;

// Stores the settled row of n cells that are not 0, divided by its value at column c, as row r of U, and that value as an entry
// of L, if they fit.
pub fn store_settled_pivot(
    q: Modulus,
    c: usize,
    n: usize,
    r: usize,
    at: usize,
    l: usize,
    total: usize,
    touched: &[u8],
    lc: &mut [u32],
    lv: &mut [u32],
    uc: &mut [u32],
    uv: &mut [u32],
    work: &mut [u64],
) -> Step
    requires { SettledPivotReady q.p c n r at l total touched.now work.old (entries_at lc.old lv.old uc.old uv.old) }
    ensures { (result.column ≡ c) × PivotOutcome q.p c r at l total work.old (entries_before lc.old lv.old uc.old uv.old) work.new (entries_after lc.new lv.new uc.new uv.new) result }
{
    if !fits(lc.len(), total, uc.len(), at, n) {
        return Step {
            over: true,
            column: c,
            at: at,
            l: l,
            total: total,
        };
    }
    let v = q.reduce(work[c]);
    lc[l] = r as u32;
    lv[l] = v;
    let next = store_settled(q, q.invert(v), at, touched, work, uc, uv);
    Step {
        over: false,
        column: c,
        at: next,
        l: l + 1,
        total: total + 1,
    }
}

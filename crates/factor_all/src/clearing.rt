// Lent lists are cleared where factoring is refused.
ghost use Rattle.factor_turn.specs.Passing.{Cleared};
ghost use Rattle.factor_all.specs.Needs.{AllClear};
ghost use Rattle.sparse.specs.Views.{stored_after, storage_after};

use lists::{clear, clear_row};

// Clears the starts, columns and values of a factor.
fn clear_factor(starts: &mut [u32], cols: &mut [u32], vals: &mut [u32])
    ensures { Cleared (stored_after starts.new cols.new vals.new) }
{
    clear(starts);
    clear(cols);
    clear(vals);
}

// Clears everything that is lent to the factoring.
pub fn clear_all(
    ro: &mut [u32],
    co: &mut [u32],
    ls: &mut [u32],
    lc: &mut [u32],
    lv: &mut [u32],
    us: &mut [u32],
    uc: &mut [u32],
    uv: &mut [u32],
    work: &mut [u64],
)
    ensures { AllClear (storage_after ro.new co.new ls.new lc.new lv.new us.new uc.new uv.new work.new) }
{
    clear(ro);
    clear(co);
    clear_factor(ls, lc, lv);
    clear_factor(us, uc, uv);
    clear_row(work);
}

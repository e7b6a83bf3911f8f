// The first line, and what the others are made from.
ghost use Rattle.sparse.specs.Views.{stored_at, stored_after};
ghost use Rattle.stages.specs.Results.{stages_of};
ghost use Rattle.ask_settings.specs.Held.{BegunFrom, BeginsSettings};
ghost use Rattle.ask_settings.specs.Needs.{BeginStagedReady, BeginLists};

use crate::Begun;
use answer_kernel::marks::mark_pivots;
use ask_lib::stopped_refusal;
use limits::{ENTRY_CELLS, SIZE_CELLS, START_CELLS};
use print_text::report::write_refusal;
use print_text::settings::write_free;
use sparse::words::Words;
use stages::{FactoredPlan, Stopped, factor_text};

// Writes the line of the refusal that the stages ended with, or how many columns are free, and marks the pivot columns in the working row.
fn begin_staged(
    staged: Result<FactoredPlan, Stopped>,
    co: &[u32],
    out: &mut [u8],
    work: &mut [u64],
) -> Begun
    requires { BeginStagedReady (stages_of staged) co.now out.old work.old }
    ensures { BegunFrom (stages_of staged) result co.now out.old out.new work.new }
{
    let plan = match staged {
        Ok(plan) => plan,
        Err(stopped) => {
            let size = write_refusal(stopped_refusal(stopped), out);
            return Begun {
                size,
                p: 0,
                columns: 0,
                rank: 0,
                upper: 0,
            };
        }
    };
    let m = plan.stated.m;
    let rank = plan.ranks.rank;
    let order = Words::stored(&co[..m as usize]);
    mark_pivots(&order, rank as usize, work);
    let size = write_free(m - rank, out);
    Begun {
        size,
        p: plan.stated.p,
        columns: m,
        rank,
        upper: plan.upper,
    }
}

// Reads a plan's text, factors the plan, and writes the first line of what is printed.
//   takes    a text, lists for C and U of the largest lengths, a buffer of at least 65,536 bytes, which hold any line, and a working row
//   gives    the length of the line, which stands in the buffer, and what the other lines are made from
//   leaves   the buffer zero past the line, C and U in their lists, and the pivot columns marked in the working row
// The factors need no check: those that the stages make pass it, which is proved.
pub fn begin(
    text: &[u8],
    co: &mut [u32],
    us: &mut [u32],
    uc: &mut [u32],
    uv: &mut [u32],
    out: &mut [u8],
    work: &mut [u64],
) -> Begun
    requires { BeginLists co.old (stored_at us.old uc.old uv.old) out.old work.old }
    ensures { BeginsSettings text.now result co.new (stored_after us.new uc.new uv.new) work.new out.old out.new }
{
    let mut starts = [0u32; START_CELLS];
    let mut cols = [0u32; ENTRY_CELLS];
    let mut vals = [0u32; ENTRY_CELLS];
    let mut ro = [0u32; SIZE_CELLS];
    let mut ls = [0u32; START_CELLS];
    let mut lc = [0u32; ENTRY_CELLS];
    let mut lv = [0u32; ENTRY_CELLS];
    let staged = factor_text(
        text,
        &mut starts,
        &mut cols,
        &mut vals,
        &mut ro,
        co,
        &mut ls,
        &mut lc,
        &mut lv,
        us,
        uc,
        uv,
        work,
    );
    begin_staged(staged, co, out, work)
}

// Answering from the engine's own factors.
ghost use Rattle.std.specs.Prelude.{ℕ, ◌≡◌, [], length, Ok};
ghost use Rattle.limits.specs.Limits.{work_length};
ghost use Rattle.call_answer.specs.Calls.{AnswersIn, given_answer};
ghost use Rattle.stages.specs.Results.{stages_of};
ghost use Rattle.stages.specs.Staged.{Fits};
ghost use Rattle.answer_lib.specs.Answering.{answer_text_of};
ghost use Rattle.answer_lib.specs.Held.{answer_held_of, answer_staged_of};
ghost use Rattle.answer_lib.specs.Needs.{StagedReady};
ghost use Rattle.sparse.specs.Views.{stored_at, stored_before, storage_at, storage_before};

use call_answer::from_factors::answer_from_factors;
use limits::{ENTRY_CELLS, SIZE_CELLS, START_CELLS};
use lists::clear;
use refusals::Refusal;
use row_space::Verdict;
use stages::{FactoredPlan, Stopped, factor_text};

// Answers from the plan and the set that the stages left in lists. x and z may have any length: the call refuses those that are not the plan's.
fn answer_held(
    plan: FactoredPlan,
    starts: &[u32],
    cols: &[u32],
    vals: &[u32],
    ro: &[u32],
    co: &[u32],
    ls: &[u32],
    lc: &[u32],
    lv: &[u32],
    us: &[u32],
    uc: &[u32],
    uv: &[u32],
    y: &[u32],
    x: &mut [u32],
    z: &mut [u32],
    work: &mut [u64],
) -> Result<Verdict, Refusal>
    requires { Fits (stages_of (Ok plan)) (stored_at starts.now cols.now vals.now) (storage_at ro.now co.now ls.now lc.now lv.now us.now uc.now uv.now work.old) }
    ensures { AnswersIn (answer_held_of (stages_of (Ok plan)) (stored_before starts.now cols.now vals.now) (storage_before ro.now co.now ls.now lc.now lv.now us.now uc.now uv.now work.old) y.now) (given_answer result) x z work }
{
    let read = plan.stated;
    let n = read.n as usize;
    let m = read.m as usize;
    let count = read.count as usize;
    let rank = plan.ranks.rank as usize;
    let lower = plan.lower as usize;
    let upper = plan.upper as usize;
    answer_from_factors(
        read.p,
        read.n,
        read.m,
        &starts[..n + 1],
        &cols[..count],
        &vals[..count],
        plan.ranks.rank,
        &ro[..n],
        &co[..m],
        &ls[..n + 1],
        &lc[..lower],
        &lv[..lower],
        &us[..rank + 1],
        &uc[..upper],
        &uv[..upper],
        y,
        x,
        z,
        work,
    )
}

// What comes of the stages: their refusal, whose row counts from 0 as in every other call for programs, or the answer.
fn answer_staged(
    staged: Result<FactoredPlan, Stopped>,
    starts: &[u32],
    cols: &[u32],
    vals: &[u32],
    ro: &[u32],
    co: &[u32],
    ls: &[u32],
    lc: &[u32],
    lv: &[u32],
    us: &[u32],
    uc: &[u32],
    uv: &[u32],
    y: &[u32],
    x: &mut [u32],
    z: &mut [u32],
    work: &mut [u64],
) -> Result<Verdict, Refusal>
    requires { StagedReady (stages_of staged) (stored_at starts.now cols.now vals.now) (storage_at ro.now co.now ls.now lc.now lv.now us.now uc.now uv.now work.old) }
    ensures { AnswersIn (answer_staged_of (stages_of staged) (stored_before starts.now cols.now vals.now) (storage_before ro.now co.now ls.now lc.now lv.now us.now uc.now uv.now work.old) y.now) (given_answer result) x z work }
{
    let plan = match staged {
        Ok(plan) => plan,
        Err(stopped) => {
            clear(x);
            clear(z);
            return Err(stopped.into());
        }
    };
    answer_held(
        plan, starts, cols, vals, ro, co, ls, lc, lv, us, uc, uv, y, x, z, work,
    )
}

// Reads a plan's text, factors the plan, and answers a question from its factors.
pub fn answer_own(
    text: &[u8],
    y: &[u32],
    x: &mut [u32],
    z: &mut [u32],
    work: &mut [u64],
) -> Result<Verdict, Refusal>
    requires { length work.old ≡ work_length }
    ensures { AnswersIn (λ (a b w : ℕ). answer_text_of text.now [] y.now a b) (given_answer result) x z work }
{
    let mut starts = [0u32; START_CELLS];
    let mut cols = [0u32; ENTRY_CELLS];
    let mut vals = [0u32; ENTRY_CELLS];
    let mut ro = [0u32; SIZE_CELLS];
    let mut co = [0u32; SIZE_CELLS];
    let mut ls = [0u32; START_CELLS];
    let mut lc = [0u32; ENTRY_CELLS];
    let mut lv = [0u32; ENTRY_CELLS];
    let mut us = [0u32; START_CELLS];
    let mut uc = [0u32; ENTRY_CELLS];
    let mut uv = [0u32; ENTRY_CELLS];
    let staged = factor_text(
        text,
        &mut starts,
        &mut cols,
        &mut vals,
        &mut ro,
        &mut co,
        &mut ls,
        &mut lc,
        &mut lv,
        &mut us,
        &mut uc,
        &mut uv,
        work,
    );
    answer_staged(
        staged, &starts, &cols, &vals, &ro, &co, &ls, &lc, &lv, &us, &uc, &uv, y, x, z, work,
    )
}

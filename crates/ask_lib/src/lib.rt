// The answer to a question about a plan's text.
#![tactic(auto)]

ghost use Rattle.std.specs.Prelude.{◌≡◌, Ok, Err, take};
ghost use Rattle.byte_buffer.specs.Fills.{Fills};
ghost use Rattle.call_answer.specs.Calls.{answer_detail, given_answer};
ghost use Rattle.ask_lib.specs.Asking.{AskLists, Asks};
ghost use Rattle.print_text.specs.Printed.{Prints};
ghost use Rattle.ask_lib.specs.Held.{answer_line_of, held_answer, AnswerHeld, stages_refusal, staged_line};
ghost use Rattle.ask_lib.specs.Needs.{LineReady, Answerable, RowCountable, AskStagedReady};
ghost use Rattle.refusals.specs.Outcome.{outcome_of};
ghost use Rattle.sparse.specs.Views.{stored_at, stored_before, storage_at, storage_before};
ghost use Rattle.stages.specs.Results.{stages_of};

use call_answer::from_factors::answer_from_factors;
use limits::{ENTRY_CELLS, SIZE_CELLS, START_CELLS};
use print_text::answer::write_answer;
use print_text::report::{from_one, write_refusal};
use refusals::{Fault, Refusal};
use row_space::Verdict;
use stages::{FactoredPlan, Stopped, factor_text};

// Writes the line of an answer: of a refusal, whose index counts from 1 in print, or the verdict with the n values of x or the m of z.
fn write_line(
    answer: Result<Verdict, Refusal>,
    n: u32,
    m: u32,
    xs: &[u32],
    zs: &[u32],
    out: &mut [u8],
) -> usize
    requires { LineReady (answer_detail (given_answer answer)) n m xs.now zs.now out.old }
    ensures { Fills out.old out.new result (answer_line_of (given_answer answer) (take n xs.now) (take m zs.now)) }
{
    match answer {
        Err(refusal) => write_refusal(from_one(Fault::QuestionTooLarge, refusal), out),
        Ok(Verdict::Open) => write_answer(true, &xs[..n as usize], out),
        Ok(Verdict::Closed) => write_answer(false, &zs[..m as usize], out),
    }
}

// The refusal of the stage that refused, as it is printed: a row counts from 1.
pub fn stopped_refusal(stopped: Stopped) -> Refusal
    requires { RowCountable (stages_of (Err stopped)) }
    ensures { outcome_of (Err result) ≡ stages_refusal (stages_of (Err stopped)) }
{
    match stopped {
        Stopped::InReading(refused) => refused,
        Stopped::InFactoring(_, refused) => from_one(Fault::StorageTooShort, refused),
    }
}

// The refusal that the stages ended with, if any, as it is printed: a row counts from 1.
pub fn refusal(staged: Result<FactoredPlan, Stopped>) -> Result<(), Refusal>
    requires { RowCountable (stages_of staged) }
    ensures { outcome_of result ≡ stages_refusal (stages_of staged) }
{
    match staged {
        Ok(_) => Ok(()),
        Err(stopped) => Err(stopped_refusal(stopped)),
    }
}

// Answers from the plan and the set that the stages left in lists.
fn answer_held(
    plan: FactoredPlan,
    starts: &[u32],
    cols: &[u32],
    vals: &[u32],
    ro: &[u32],
    co: &[u32],
    ls: &[u32],
    lc: &[u32],
    lv: &[u32],
    us: &[u32],
    uc: &[u32],
    uv: &[u32],
    y: &[u32],
    x: &mut [u32],
    z: &mut [u32],
    work: &mut [u64],
) -> Result<Verdict, Refusal>
    requires { Answerable (stages_of (Ok plan)) (stored_at starts.now cols.now vals.now) (storage_at ro.now co.now ls.now lc.now lv.now us.now uc.now uv.now work.old) y.now x.old z.old }
    ensures { AnswerHeld (held_answer (stages_of (Ok plan)) (stored_before starts.now cols.now vals.now) (storage_before ro.now co.now ls.now lc.now lv.now us.now uc.now uv.now work.old) y.now) (given_answer result) plan.stated.n plan.stated.m x.new z.new work.old work.new }
{
    let stated = plan.stated;
    let n = stated.n as usize;
    let m = stated.m as usize;
    let count = stated.count as usize;
    let rank = plan.ranks.rank as usize;
    let lower = plan.lower as usize;
    let upper = plan.upper as usize;
    answer_from_factors(
        stated.p,
        stated.n,
        stated.m,
        &starts[..n + 1],
        &cols[..count],
        &vals[..count],
        plan.ranks.rank,
        &ro[..n],
        &co[..m],
        &ls[..n + 1],
        &lc[..lower],
        &lv[..lower],
        &us[..rank + 1],
        &uc[..upper],
        &uv[..upper],
        y,
        &mut x[..n],
        &mut z[..m],
        work,
    )
}

// Writes the line of what the stages came to: of the refusal that they ended with, or of the answer.
fn ask_staged(
    staged: Result<FactoredPlan, Stopped>,
    starts: &[u32],
    cols: &[u32],
    vals: &[u32],
    ro: &[u32],
    co: &[u32],
    ls: &[u32],
    lc: &[u32],
    lv: &[u32],
    us: &[u32],
    uc: &[u32],
    uv: &[u32],
    y: &[u32],
    out: &mut [u8],
    work: &mut [u64],
) -> usize
    requires { AskStagedReady (stages_of staged) (stored_at starts.now cols.now vals.now) (storage_at ro.now co.now ls.now lc.now lv.now us.now uc.now uv.now work.old) y.now out.old }
    ensures { Prints (staged_line (stages_of staged) (stored_before starts.now cols.now vals.now) (storage_before ro.now co.now ls.now lc.now lv.now us.now uc.now uv.now work.old) y.now) result out.old out.new work.old work.new }
{
    let plan = match staged {
        Ok(plan) => plan,
        Err(stopped) => return write_refusal(stopped_refusal(stopped), out),
    };
    let mut x = [0u32; SIZE_CELLS];
    let mut z = [0u32; SIZE_CELLS];
    let answer = answer_held(
        plan, starts, cols, vals, ro, co, ls, lc, lv, us, uc, uv, y, &mut x, &mut z, work,
    );
    write_line(answer, plan.stated.n, plan.stated.m, &x, &z, out)
}

// Reads a plan's text, factors the plan, answers a question, and writes what the question program prints.
//   takes    a text, a question of at most 2,049 values, a buffer of at least 65,536 bytes, which hold any line, and a working row
//   gives    the length of the line, which stands in the buffer
//   leaves   the buffer zero past the line, and the working row all zero
pub fn ask(text: &[u8], y: &[u32], out: &mut [u8], work: &mut [u64]) -> usize
    requires { AskLists y.now out.old work.old }
    ensures { Asks text.now y.now result out.old out.new work.old work.new }
{
    let mut starts = [0u32; START_CELLS];
    let mut cols = [0u32; ENTRY_CELLS];
    let mut vals = [0u32; ENTRY_CELLS];
    let mut ro = [0u32; SIZE_CELLS];
    let mut co = [0u32; SIZE_CELLS];
    let mut ls = [0u32; START_CELLS];
    let mut lc = [0u32; ENTRY_CELLS];
    let mut lv = [0u32; ENTRY_CELLS];
    let mut us = [0u32; START_CELLS];
    let mut uc = [0u32; ENTRY_CELLS];
    let mut uv = [0u32; ENTRY_CELLS];
    let staged = factor_text(
        text,
        &mut starts,
        &mut cols,
        &mut vals,
        &mut ro,
        &mut co,
        &mut ls,
        &mut lc,
        &mut lv,
        &mut us,
        &mut uc,
        &mut uv,
        work,
    );
    ask_staged(
        staged, &starts, &cols, &vals, &ro, &co, &ls, &lc, &lv, &us, &uc, &uv, y, out, work,
    )
}

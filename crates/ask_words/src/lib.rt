// The words that give slot values, from a plan's text; or the contradiction between them.
#![tactic(auto)]

ghost use Rattle.std.specs.Prelude.{◌≡◌, Ok, take};
ghost use Rattle.byte_buffer.specs.Fills.{Fills};
ghost use Rattle.call_slots.specs.Calls.{solution_detail, given_solution};
ghost use Rattle.print_text.specs.Printed.{Prints};
ghost use Rattle.ask_lib.specs.Asking.{AskLists};
ghost use Rattle.ask_lib.specs.Needs.{LineReady};
ghost use Rattle.ask_words.specs.Solving.{TellsWords};
ghost use Rattle.ask_words.specs.Held.{solution_line_of, held_slots, SlotsHeld, staged_words};
ghost use Rattle.ask_words.specs.Needs.{Solvable, WordsStagedReady};
ghost use Rattle.sparse.specs.Views.{stored_at, stored_before, storage_at, storage_before};
ghost use Rattle.stages.specs.Results.{stages_of};

use ask_lib::stopped_refusal;
use call_slots::from_factors::solve_slots_from_factors;
use column_space::SlotVerdict;
use limits::{ENTRY_CELLS, SIZE_CELLS, START_CELLS};
use print_text::answer::write_slots;
use print_text::report::{from_one, write_refusal};
use refusals::{Fault, Refusal};
use stages::{FactoredPlan, Stopped, factor_owned};

// Writes the line of an answer: of a refusal, whose index counts from 1 in print, or `words` with the m values of the setting, or
// `contradiction` with the n values of the combination.
fn write_line(
    answer: Result<SlotVerdict, Refusal>,
    n: u32,
    m: u32,
    ss: &[u32],
    ws: &[u32],
    out: &mut [u8],
) -> usize
    requires { LineReady (solution_detail (given_solution answer)) n m ws.now ss.now out.old }
    ensures { Fills out.old out.new result (solution_line_of (given_solution answer) (take m ss.now) (take n ws.now)) }
{
    match answer {
        Err(refusal) => write_refusal(from_one(Fault::QuestionTooLarge, refusal), out),
        Ok(SlotVerdict::Solved) => write_slots(true, &ss[..m as usize], out),
        Ok(SlotVerdict::Contradiction) => write_slots(false, &ws[..n as usize], out),
    }
}

// Solves from the plan, its owners and the set that the stages left in lists.
fn solve_held(
    plan: FactoredPlan,
    starts: &[u32],
    cols: &[u32],
    vals: &[u32],
    owners: &[u8],
    ro: &[u32],
    co: &[u32],
    ls: &[u32],
    lc: &[u32],
    lv: &[u32],
    us: &[u32],
    uc: &[u32],
    uv: &[u32],
    h: &[u32],
    setting: &mut [u32],
    combination: &mut [u32],
    work: &mut [u64],
) -> Result<SlotVerdict, Refusal>
    requires { Solvable (stages_of (Ok plan)) (stored_at starts.now cols.now vals.now) owners.now (storage_at ro.now co.now ls.now lc.now lv.now us.now uc.now uv.now work.old) h.now setting.old combination.old }
    ensures { SlotsHeld (held_slots (stages_of (Ok plan)) (stored_before starts.now cols.now vals.now) (storage_before ro.now co.now ls.now lc.now lv.now us.now uc.now uv.now work.old) h.now) (given_solution result) plan.stated.n plan.stated.m setting.new combination.new work.old work.new }
{
    let stated = plan.stated;
    let n = stated.n as usize;
    let m = stated.m as usize;
    let count = stated.count as usize;
    let rank = plan.ranks.rank as usize;
    let lower = plan.lower as usize;
    let upper = plan.upper as usize;
    solve_slots_from_factors(
        stated.p,
        stated.n,
        stated.m,
        &starts[..n + 1],
        &cols[..count],
        &vals[..count],
        &owners[..m],
        plan.ranks.rank,
        &ro[..n],
        &co[..m],
        &ls[..n + 1],
        &lc[..lower],
        &lv[..lower],
        &us[..rank + 1],
        &uc[..upper],
        &uv[..upper],
        h,
        &mut setting[..m],
        &mut combination[..n],
        work,
    )
}

// Writes the line of what the stages came to: of the refusal that they ended with, or of the answer.
fn words_staged(
    staged: Result<FactoredPlan, Stopped>,
    starts: &[u32],
    cols: &[u32],
    vals: &[u32],
    owners: &[u8],
    ro: &[u32],
    co: &[u32],
    ls: &[u32],
    lc: &[u32],
    lv: &[u32],
    us: &[u32],
    uc: &[u32],
    uv: &[u32],
    h: &[u32],
    out: &mut [u8],
    work: &mut [u64],
) -> usize
    requires { WordsStagedReady (stages_of staged) (stored_at starts.now cols.now vals.now) owners.now (storage_at ro.now co.now ls.now lc.now lv.now us.now uc.now uv.now work.old) h.now out.old }
    ensures { Prints (staged_words (stages_of staged) (stored_before starts.now cols.now vals.now) (storage_before ro.now co.now ls.now lc.now lv.now us.now uc.now uv.now work.old) h.now) result out.old out.new work.old work.new }
{
    let plan = match staged {
        Ok(plan) => plan,
        Err(stopped) => return write_refusal(stopped_refusal(stopped), out),
    };
    let mut setting = [0u32; SIZE_CELLS];
    let mut combination = [0u32; SIZE_CELLS];
    let answer = solve_held(
        plan,
        starts,
        cols,
        vals,
        owners,
        ro,
        co,
        ls,
        lc,
        lv,
        us,
        uc,
        uv,
        h,
        &mut setting,
        &mut combination,
        work,
    );
    write_line(
        answer,
        plan.stated.n,
        plan.stated.m,
        &setting,
        &combination,
        out,
    )
}

// Reads a plan's text, factors the plan, solves for the words that give slot values, and writes what the question program prints.
//   takes    a text, at most 2,049 slot values, a buffer of at least 65,536 bytes, which hold any line, and a working row
//   gives    the length of the line, which stands in the buffer
//   leaves   the buffer zero past the line, and the working row all zero
pub fn words(text: &[u8], h: &[u32], out: &mut [u8], work: &mut [u64]) -> usize
    requires { AskLists h.now out.old work.old }
    ensures { TellsWords text.now h.now result out.old out.new work.old work.new }
{
    let mut starts = [0u32; START_CELLS];
    let mut cols = [0u32; ENTRY_CELLS];
    let mut vals = [0u32; ENTRY_CELLS];
    let mut owners = [0u8; SIZE_CELLS];
    let mut ro = [0u32; SIZE_CELLS];
    let mut co = [0u32; SIZE_CELLS];
    let mut ls = [0u32; START_CELLS];
    let mut lc = [0u32; ENTRY_CELLS];
    let mut lv = [0u32; ENTRY_CELLS];
    let mut us = [0u32; START_CELLS];
    let mut uc = [0u32; ENTRY_CELLS];
    let mut uv = [0u32; ENTRY_CELLS];
    let staged = factor_owned(
        text,
        &mut starts,
        &mut cols,
        &mut vals,
        &mut owners,
        &mut ro,
        &mut co,
        &mut ls,
        &mut lc,
        &mut lv,
        &mut us,
        &mut uc,
        &mut uv,
        work,
    );
    words_staged(
        staged, &starts, &cols, &vals, &owners, &ro, &co, &ls, &lc, &lv, &us, &uc, &uv, h, out,
        work,
    )
}

// The report of a plan's text.
#![tactic(auto)]

ghost use Rattle.std.specs.Prelude.{◌≡◌, Ok};
ghost use Rattle.refusals.specs.Outcome.{outcome_of};
ghost use Rattle.call_open.specs.Calls.{ListsIn};
ghost use Rattle.stages.specs.Results.{stages_of};
ghost use Rattle.stages.specs.Staged.{Fits};
ghost use Rattle.print_text.specs.Printed.{Prints};
ghost use Rattle.report_lib.specs.Held.{held_summary, held_list, held_text, staged_text};
ghost use Rattle.report_lib.specs.Needs.{HeldReady, ReportStagedReady};
ghost use Rattle.report_lib.specs.Reporting.{ReportLists, Reports, ReportsAll};
ghost use Rattle.sparse.specs.Views.{stored_at, stored_before, storage_at, storage_before};

use call_open::from_factors::open_columns_from_factors;
use limits::{ENTRY_CELLS, SIZE_CELLS, START_CELLS};
use print_text::lines::Summary;
use print_text::report::{from_one, write_refusal, write_report};
use refusals::{Fault, Refusal};
use stages::{FactoredPlan, Stopped, factor_owned, first_refusal};

// What reporting returns: the first refusal, by reading or by factoring, and the length of what is printed.
#[derive(Clone, Copy, Debug, PartialEq, Eq)]
pub struct Reported {
    pub outcome: Result<(), Refusal>,
    pub size: usize,
}

// The numbers of a report.
fn summary(plan: FactoredPlan) -> Summary
    ensures { result ≡ held_summary (stages_of (Ok plan)) }
{
    let read = plan.stated;
    Summary {
        modulus: read.p,
        slots: read.n,
        words: read.m,
        entries: read.count,
        rank: plan.ranks.rank,
        structural: plan.ranks.structural,
        lower: plan.lower,
        upper: plan.upper,
    }
}

// Lists the open columns from the plan and the set that the stages left in lists.
fn list_held(
    plan: FactoredPlan,
    starts: &[u32],
    cols: &[u32],
    vals: &[u32],
    ro: &[u32],
    co: &[u32],
    ls: &[u32],
    lc: &[u32],
    lv: &[u32],
    us: &[u32],
    uc: &[u32],
    uv: &[u32],
    marks: &mut [u32],
    work: &mut [u64],
) -> Result<(), Refusal>
    requires { Fits (stages_of (Ok plan)) (stored_at starts.now cols.now vals.now) (storage_at ro.now co.now ls.now lc.now lv.now us.now uc.now uv.now work.old) }
    ensures { ListsIn (held_list (stages_of (Ok plan)) (stored_before starts.now cols.now vals.now) (storage_before ro.now co.now ls.now lc.now lv.now us.now uc.now uv.now work.old)) (outcome_of result) marks work }
{
    let read = plan.stated;
    let n = read.n as usize;
    let m = read.m as usize;
    let count = read.count as usize;
    let rank = plan.ranks.rank as usize;
    let lower = plan.lower as usize;
    let upper = plan.upper as usize;
    open_columns_from_factors(
        read.p,
        read.n,
        read.m,
        &starts[..n + 1],
        &cols[..count],
        &vals[..count],
        plan.ranks.rank,
        &ro[..n],
        &co[..m],
        &ls[..n + 1],
        &lc[..lower],
        &lv[..lower],
        &us[..rank + 1],
        &uc[..upper],
        &uv[..upper],
        marks,
        work,
    )
}

// Writes what is printed once reading and factoring passed.
fn report_held(
    plan: FactoredPlan,
    starts: &[u32],
    cols: &[u32],
    vals: &[u32],
    ro: &[u32],
    co: &[u32],
    ls: &[u32],
    lc: &[u32],
    lv: &[u32],
    us: &[u32],
    uc: &[u32],
    uv: &[u32],
    owners: &[u8],
    marks: &mut [u32],
    out: &mut [u8],
    work: &mut [u64],
) -> usize
    requires { HeldReady (stages_of (Ok plan)) (stored_at starts.now cols.now vals.now) owners.now (storage_at ro.now co.now ls.now lc.now lv.now us.now uc.now uv.now work.old) marks.old out.old }
    ensures { Prints (held_text (stages_of (Ok plan)) (stored_before starts.now cols.now vals.now) owners.now (storage_before ro.now co.now ls.now lc.now lv.now us.now uc.now uv.now work.old)) result out.old out.new work.old work.new }
{
    let listed = list_held(
        plan, starts, cols, vals, ro, co, ls, lc, lv, us, uc, uv, marks, work,
    );
    if let Err(refusal) = listed {
        return write_refusal(refusal, out);
    }
    write_report(summary(plan), owners, marks, out)
}

// Writes what is printed of any stages.
fn report_staged(
    staged: Result<FactoredPlan, Stopped>,
    starts: &[u32],
    cols: &[u32],
    vals: &[u32],
    ro: &[u32],
    co: &[u32],
    ls: &[u32],
    lc: &[u32],
    lv: &[u32],
    us: &[u32],
    uc: &[u32],
    uv: &[u32],
    owners: &[u8],
    marks: &mut [u32],
    out: &mut [u8],
    work: &mut [u64],
) -> usize
    requires { ReportStagedReady (stages_of staged) (stored_at starts.now cols.now vals.now) owners.now (storage_at ro.now co.now ls.now lc.now lv.now us.now uc.now uv.now work.old) marks.old out.old }
    ensures { Prints (staged_text (stages_of staged) (stored_before starts.now cols.now vals.now) owners.now (storage_before ro.now co.now ls.now lc.now lv.now us.now uc.now uv.now work.old)) result out.old out.new work.old work.new }
{
    let plan = match staged {
        Ok(plan) => plan,
        Err(Stopped::InReading(refusal)) => return write_refusal(refusal, out),
        Err(Stopped::InFactoring(_, refusal)) => {
            return write_refusal(from_one(Fault::StorageTooShort, refusal), out);
        }
    };
    let m = plan.stated.m as usize;
    report_held(
        plan,
        starts,
        cols,
        vals,
        ro,
        co,
        ls,
        lc,
        lv,
        us,
        uc,
        uv,
        &owners[..m],
        &mut marks[..m],
        out,
        work,
    )
}

// Reads a plan's text, factors the plan, and writes what the report program prints.
//   takes    a text, a buffer of at least 65,536 bytes, which hold any report, and a working row
//   gives    the length of the report, which stands in the buffer, and the first refusal, whose line the report is then
//   leaves   the buffer zero past the report, and the working row all zero
pub fn report_all(text: &[u8], out: &mut [u8], work: &mut [u64]) -> Reported
    requires { ReportLists out.old work.old }
    ensures { ReportsAll text.now result out.old out.new work.old work.new }
{
    let mut starts = [0u32; START_CELLS];
    let mut cols = [0u32; ENTRY_CELLS];
    let mut vals = [0u32; ENTRY_CELLS];
    let mut ro = [0u32; SIZE_CELLS];
    let mut co = [0u32; SIZE_CELLS];
    let mut ls = [0u32; START_CELLS];
    let mut lc = [0u32; ENTRY_CELLS];
    let mut lv = [0u32; ENTRY_CELLS];
    let mut us = [0u32; START_CELLS];
    let mut uc = [0u32; ENTRY_CELLS];
    let mut uv = [0u32; ENTRY_CELLS];
    let mut marks = [0u32; SIZE_CELLS];
    let mut owners = [0u8; SIZE_CELLS];
    let staged = factor_owned(
        text,
        &mut starts,
        &mut cols,
        &mut vals,
        &mut owners,
        &mut ro,
        &mut co,
        &mut ls,
        &mut lc,
        &mut lv,
        &mut us,
        &mut uc,
        &mut uv,
        work,
    );
    let size = report_staged(
        staged, &starts, &cols, &vals, &ro, &co, &ls, &lc, &lv, &us, &uc, &uv, &owners, &mut marks,
        out, work,
    );
    let outcome = first_refusal(staged);
    Reported { outcome, size }
}

// The same for a caller that only prints: the length alone.
pub fn report(text: &[u8], out: &mut [u8], work: &mut [u64]) -> usize
    requires { ReportLists out.old work.old }
    ensures { Reports text.now result out.old out.new work.old work.new }
{
    let reported = report_all(text, out, work);
    reported.size
}

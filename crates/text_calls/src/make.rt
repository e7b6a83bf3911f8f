// Making a certificate of what the stages left in lists.
ghost use Rattle.std.specs.Prelude.{length, Ok};
ghost use Rattle.refusals.specs.Outcome.{outcome_of};
ghost use Rattle.stages.specs.Results.{stages_of};
ghost use Rattle.stages.specs.Staged.{Fits};
ghost use Rattle.text_calls.specs.Held.{held_certificate, written_of, staged_outcome, Puts};
ghost use Rattle.text_calls.specs.Needs.{StagedFits};
ghost use Rattle.sparse.specs.Views.{stored_at, stored_before, storage_at, storage_before};

use call_write::write_certificate;
use lists::clear_bytes;
use refusals::Refusal;
use stages::{FactoredPlan, Stopped};

// Writes the certificate of the set that the stages left in lists.
fn write_held(
    plan: FactoredPlan,
    starts: &[u32],
    cols: &[u32],
    vals: &[u32],
    ro: &[u32],
    co: &[u32],
    ls: &[u32],
    lc: &[u32],
    lv: &[u32],
    us: &[u32],
    uc: &[u32],
    uv: &[u32],
    buffer: &mut [u8],
    work: &mut [u64],
) -> Result<(), Refusal>
    requires { Fits (stages_of (Ok plan)) (stored_at starts.now cols.now vals.now) (storage_at ro.now co.now ls.now lc.now lv.now us.now uc.now uv.now work.old) }
    ensures { Puts (written_of (stages_of (Ok plan)) (stored_before starts.now cols.now vals.now) (storage_before ro.now co.now ls.now lc.now lv.now us.now uc.now uv.now work.old) (length buffer.old)) (held_certificate (stages_of (Ok plan)) (storage_before ro.now co.now ls.now lc.now lv.now us.now uc.now uv.now work.old)) (outcome_of result) buffer.old buffer.new }
{
    let read = plan.stated;
    let n = read.n as usize;
    let m = read.m as usize;
    let count = read.count as usize;
    let rank = plan.ranks.rank as usize;
    let lower = plan.lower as usize;
    let upper = plan.upper as usize;
    write_certificate(
        read.p,
        read.n,
        read.m,
        &starts[..n + 1],
        &cols[..count],
        &vals[..count],
        plan.ranks.rank,
        &ro[..n],
        &co[..m],
        &ls[..n + 1],
        &lc[..lower],
        &lv[..lower],
        &us[..rank + 1],
        &uc[..upper],
        &uv[..upper],
        buffer,
        work,
    )?;
    Ok(())
}

// What comes of the stages: a refusal, which leaves the buffer all zero, or the certificate.
pub fn make_staged(
    staged: Result<FactoredPlan, Stopped>,
    starts: &[u32],
    cols: &[u32],
    vals: &[u32],
    ro: &[u32],
    co: &[u32],
    ls: &[u32],
    lc: &[u32],
    lv: &[u32],
    us: &[u32],
    uc: &[u32],
    uv: &[u32],
    buffer: &mut [u8],
    work: &mut [u64],
) -> Result<(), Refusal>
    requires { StagedFits (stages_of staged) (stored_at starts.now cols.now vals.now) (storage_at ro.now co.now ls.now lc.now lv.now us.now uc.now uv.now work.old) }
    ensures { Puts (staged_outcome (stages_of staged) (stored_before starts.now cols.now vals.now) (storage_before ro.now co.now ls.now lc.now lv.now us.now uc.now uv.now work.old) (length buffer.old)) (held_certificate (stages_of staged) (storage_before ro.now co.now ls.now lc.now lv.now us.now uc.now uv.now work.old)) (outcome_of result) buffer.old buffer.new }
{
    match staged {
        Ok(plan) => write_held(
            plan, starts, cols, vals, ro, co, ls, lc, lv, us, uc, uv, buffer, work,
        ),
        Err(stopped) => {
            clear_bytes(buffer);
            Err(stopped.into())
        }
    }
}

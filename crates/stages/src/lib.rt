// A plan's text, read and then factored: the stages that the calls on a text begin with. They work in lists of the largest lengths.
#![tactic(auto)]

ghost use Rattle.std.specs.Prelude.{◌≡◌, Ok};
ghost use Rattle.factor_all.specs.Factored.{factored_of};
ghost use Rattle.refusals.specs.Outcome.{outcome_of};
ghost use Rattle.sparse.specs.Views.{stored_at, stored_before, stored_after, storage_at, storage_after};
ghost use Rattle.stages.specs.Lists.{StageLists, OwnedLists};
ghost use Rattle.stages.specs.Needs.{Lendable, HeldFactored};
ghost use Rattle.stages.specs.Results.{stages_of, refusal_in};
ghost use Rattle.stages.specs.Staged.{stages_outcome, Staged, StagedOwned};
ghost use Rattle.text_plan.specs.Call.{reading_of};

use call_factor::factor_accepted;
use factor_all::factor::Ranks;
use limits::SIZE_CELLS;
use lists::clear_row;
use refusals::Refusal;
use text_plan::Stated;

// What the stages find where none refuses: what reading returned, what factoring returned after it, and the entry counts of L and U.
#[derive(Clone, Copy, Debug, PartialEq, Eq)]
pub struct FactoredPlan {
    pub stated: Stated,
    pub ranks: Ranks,
    pub lower: u32,
    pub upper: u32,
}

// The stage that refused. Factoring refuses a plan that was read, so what its text states is known.
#[derive(Clone, Copy, Debug, PartialEq, Eq)]
pub enum Stopped {
    InReading(Refusal),
    InFactoring(Stated, Refusal),
}

// The refusal alone, for callers that treat both stages alike.
impl From<Stopped> for Refusal {
    ghost from_gives = { λ stopped r. r ≡ refusal_in stopped };

    fn from(stopped: Stopped) -> Refusal {
        match stopped {
            Stopped::InReading(refusal) => refusal,
            Stopped::InFactoring(_, refusal) => refusal,
        }
    }
}

// Factors the plan that a reading left in lists: what it read passes the tests of factoring, which are not made again.
fn factor_held(
    stated: Stated,
    starts: &[u32],
    cols: &[u32],
    vals: &[u32],
    ro: &mut [u32],
    co: &mut [u32],
    ls: &mut [u32],
    lc: &mut [u32],
    lv: &mut [u32],
    us: &mut [u32],
    uc: &mut [u32],
    uv: &mut [u32],
    work: &mut [u64],
) -> Result<Ranks, Refusal>
    requires { Lendable (reading_of (Ok stated)) (stored_at starts.now cols.now vals.now) (storage_at ro.old co.old ls.old lc.old lv.old us.old uc.old uv.old work.old) }
    ensures { HeldFactored (reading_of (Ok stated)) (stored_before starts.now cols.now vals.now) (factored_of result) (storage_after ro.new co.new ls.new lc.new lv.new us.new uc.new uv.new work.new) }
{
    let n = stated.n as usize;
    let m = stated.m as usize;
    let count = stated.count as usize;
    factor_accepted(
        stated.p,
        stated.n,
        stated.m,
        &starts[..n + 1],
        &cols[..count],
        &vals[..count],
        &mut ro[..n],
        &mut co[..m],
        &mut ls[..n + 1],
        lc,
        lv,
        &mut us[..n + 1],
        uc,
        uv,
        work,
    )
}

// Reads a plan's text with the owners of its words, and factors the plan.
pub fn factor_owned(
    text: &[u8],
    starts: &mut [u32],
    cols: &mut [u32],
    vals: &mut [u32],
    owners: &mut [u8],
    ro: &mut [u32],
    co: &mut [u32],
    ls: &mut [u32],
    lc: &mut [u32],
    lv: &mut [u32],
    us: &mut [u32],
    uc: &mut [u32],
    uv: &mut [u32],
    work: &mut [u64],
) -> Result<FactoredPlan, Stopped>
    requires { OwnedLists (stored_at starts.old cols.old vals.old) owners.old (storage_at ro.old co.old ls.old lc.old lv.old us.old uc.old uv.old work.old) }
    ensures { StagedOwned text.now (stages_of result) (stored_after starts.new cols.new vals.new) owners.new work.old (storage_after ro.new co.new ls.new lc.new lv.new us.new uc.new uv.new work.new) }
{
    let stated = match text_owners::read(text, starts, cols, vals, owners) {
        Ok(stated) => stated,
        Err(refusal) => {
            clear_row(work);
            return Err(Stopped::InReading(refusal));
        }
    };
    let ranks = match factor_held(
        stated, starts, cols, vals, ro, co, ls, lc, lv, us, uc, uv, work,
    ) {
        Ok(ranks) => ranks,
        Err(refusal) => return Err(Stopped::InFactoring(stated, refusal)),
    };
    Ok(FactoredPlan {
        stated,
        ranks,
        lower: ls[stated.n as usize],
        upper: us[ranks.rank as usize],
    })
}

// The same for those who do not look at the owners.
pub fn factor_text(
    text: &[u8],
    starts: &mut [u32],
    cols: &mut [u32],
    vals: &mut [u32],
    ro: &mut [u32],
    co: &mut [u32],
    ls: &mut [u32],
    lc: &mut [u32],
    lv: &mut [u32],
    us: &mut [u32],
    uc: &mut [u32],
    uv: &mut [u32],
    work: &mut [u64],
) -> Result<FactoredPlan, Stopped>
    requires { StageLists (stored_at starts.old cols.old vals.old) (storage_at ro.old co.old ls.old lc.old lv.old us.old uc.old uv.old work.old) }
    ensures { Staged text.now (stages_of result) (stored_after starts.new cols.new vals.new) work.old (storage_after ro.new co.new ls.new lc.new lv.new us.new uc.new uv.new work.new) }
{
    let mut owners = [0u8; SIZE_CELLS];
    factor_owned(
        text,
        starts,
        cols,
        vals,
        &mut owners,
        ro,
        co,
        ls,
        lc,
        lv,
        us,
        uc,
        uv,
        work,
    )
}

// The first refusal of the stages, if any, by reading or by factoring: a row counts from 0 here, from 1 in print.
pub fn first_refusal(staged: Result<FactoredPlan, Stopped>) -> Result<(), Refusal>
    ensures { outcome_of result ≡ stages_outcome (stages_of staged) }
{
    match staged {
        Ok(_) => Ok(()),
        Err(stopped) => Err(stopped.into()),
    }
}

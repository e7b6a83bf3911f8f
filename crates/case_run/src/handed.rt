// What factoring is handed: the modulus, the sizes, and the lengths of the plan's lists and of the lent ones.
use crate::change::{Change, Part, given};
use text_plan::Stated;

#[derive(Clone, Copy, Debug, PartialEq, Eq)]
pub struct Handed {
    pub p: u32,
    pub n: u32,
    pub m: u32,
    pub starts: u32,
    pub columns: u32,
    pub values: u32,
    pub owners: u32,
    pub rows: u32,
    pub cols: u32,
    pub ls: u32,
    pub lc: u32,
    pub lv: u32,
    pub us: u32,
    pub uc: u32,
    pub uv: u32,
    pub work: u32,
}

// What factoring takes for a plan that was read and for rooms l and u, with one change.
pub fn prepare(plan: Stated, l: u32, u: u32, change: Option<Change>) -> Handed {
    let n = given(change, Part::N, plan.n);
    let m = given(change, Part::M, plan.m);
    let entries = given(change, Part::Entries, plan.count);
    let starts = n.wrapping_add(1); // no case has an n that wraps
    Handed {
        p: given(change, Part::P, plan.p),
        n,
        m,
        starts: given(change, Part::Starts, starts),
        columns: given(change, Part::Columns, entries),
        values: given(change, Part::Values, entries),
        owners: given(change, Part::Owners, m),
        rows: given(change, Part::R, n),
        cols: given(change, Part::C, m),
        ls: given(change, Part::LStarts, starts),
        lc: given(change, Part::LColumns, l),
        lv: given(change, Part::LValues, l),
        us: given(change, Part::UStarts, starts),
        uc: given(change, Part::UColumns, u),
        uv: given(change, Part::UValues, u),
        work: given(change, Part::Work, 2048),
    }
}

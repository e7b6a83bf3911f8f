// Runs a case: a plan's text is read into lists of 9s, one thing is changed, the plan is factored into lists of 9s, and what comes
// of it is printed.
use crate::change::{Change, Part, put_first};
use crate::handed::{Handed, prepare};
use crate::print;
use call_owned::factor::factor;
use case_print::parts::{first, first_bytes, within, within_bytes, within_row};
use refusals::Refusal;
use text_plan::Stated;

// Factors a plan into lent lists and prints what it returned and left.
fn factor_and_print(
    rt: &impl Print,
    name: &[u8],
    h: Handed,
    starts: &[u32],
    cols: &[u32],
    vals: &[u32],
    owners: &[u8],
    ro: &mut [u32],
    co: &mut [u32],
    ls: &mut [u32],
    lc: &mut [u32],
    lv: &mut [u32],
    us: &mut [u32],
    uc: &mut [u32],
    uv: &mut [u32],
    work: &mut [u64],
) {
    let factored = factor(
        h.p, h.n, h.m, starts, cols, vals, owners, ro, co, ls, lc, lv, us, uc, uv, work,
    );
    print::result(
        rt, name, h.n, &factored, ro, co, ls, lc, lv, us, uc, uv, work,
    );
}

// Lends lists of 9s, as many cells of each as are to be handed.
fn lend(
    rt: &impl Print,
    name: &[u8],
    h: Handed,
    starts: &[u32],
    cols: &[u32],
    vals: &[u32],
    owners: &[u8],
) {
    let mut ro = [9u32; 2049];
    let mut co = [9u32; 2049];
    let mut ls = [9u32; 2050];
    let mut lc = [9u32; 32];
    let mut lv = [9u32; 32];
    let mut us = [9u32; 2050];
    let mut uc = [9u32; 32];
    let mut uv = [9u32; 32];
    let mut work = [9u64; 2049];
    let a = within(&ro, h.rows);
    let b = within(&co, h.cols);
    let c = within(&ls, h.ls);
    let d = within(&lc, h.lc);
    let e = within(&lv, h.lv);
    let f = within(&us, h.us);
    let g = within(&uc, h.uc);
    let i = within(&uv, h.uv);
    let k = within_row(&work, h.work);
    factor_and_print(
        rt,
        name,
        h,
        starts,
        cols,
        vals,
        owners,
        &mut ro[..a],
        &mut co[..b],
        &mut ls[..c],
        &mut lc[..d],
        &mut lv[..e],
        &mut us[..f],
        &mut uc[..g],
        &mut uv[..i],
        &mut work[..k],
    );
}

// Reads a text into the first 2,049 starts and the first 2,048 owners, which reading takes, and into columns and values; changes what
// the case changes there.
fn read(
    text: &[u8],
    change: Option<Change>,
    starts: &mut [u32],
    cols: &mut [u32],
    vals: &mut [u32],
    owners: &mut [u8],
) -> Result<Stated, Refusal> {
    let e = within(starts, 2049);
    let k = within_bytes(owners, 2048);
    let plan = text_owners::read(text, &mut starts[..e], cols, vals, &mut owners[..k]);
    put_first(change, Part::FirstStart, starts);
    put_first(change, Part::FirstColumn, cols);
    put_first(change, Part::FirstValue, vals);
    plan
}

// Runs a case with rooms l and u for the entries of L and U. A text that is refused has no plan to factor.
pub fn run(rt: &impl Print, name: &[u8], text: &[u8], l: u32, u: u32, change: Option<Change>) {
    let mut starts = [9u32; 2050];
    let mut cols = [9u32; 16385];
    let mut vals = [9u32; 16385];
    let mut owners = [9u8; 2050];
    let plan = match read(text, change, &mut starts, &mut cols, &mut vals, &mut owners) {
        Ok(plan) => plan,
        Err(refusal) => {
            print::not_read(rt, name, refusal);
            return;
        }
    };
    let h = prepare(plan, l, u, change);
    lend(
        rt,
        name,
        h,
        first(&starts, h.starts),
        first(&cols, h.columns),
        first(&vals, h.values),
        first_bytes(&owners, h.owners),
    );
}

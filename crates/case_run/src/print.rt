// What the cases print, on standard output.
use case_print::parts::first;
use case_print::{list, nonzero, nonzero_row, number, outcome, refused, say};
use factor_all::factor::Ranks;
use refusals::Refusal;

// A case whose text is refused.
pub fn not_read(rt: &impl Print, name: &[u8], refusal: Refusal) {
    say(rt, name);
    say(rt, b": not read");
    refused(rt, refusal);
    say(rt, b"\n");
}

// A case's name and what factoring returned; no rank where it was refused.
fn line(rt: &impl Print, name: &[u8], factored: &Result<Ranks, Refusal>) {
    let (rank, structural) = match factored {
        Ok(ranks) => (ranks.rank, ranks.structural),
        Err(_) => (0, 0),
    };
    say(rt, name);
    say(rt, b":");
    outcome(rt, factored);
    let _ = print!(rt; " rank {rank} structural {structural}");
}

// How many cells of each lent list are not 0.
fn cells(
    rt: &impl Print,
    ro: &[u32],
    co: &[u32],
    ls: &[u32],
    lc: &[u32],
    lv: &[u32],
    us: &[u32],
    uc: &[u32],
    uv: &[u32],
    work: &[u64],
) {
    say(rt, b" cells");
    number(rt, nonzero(ro) as u64);
    number(rt, nonzero(co) as u64);
    number(rt, nonzero(ls) as u64);
    number(rt, nonzero(lc) as u64);
    number(rt, nonzero(lv) as u64);
    number(rt, nonzero(us) as u64);
    number(rt, nonzero(uc) as u64);
    number(rt, nonzero(uv) as u64);
    number(rt, nonzero_row(work) as u64);
    say(rt, b"\n");
}

// A stored factor of so many rows.
fn factor(rt: &impl Print, label: &[u8], height: u32, starts: &[u32], cols: &[u32], vals: &[u32]) {
    let entries = starts.get(height as usize).copied().unwrap_or(0);
    say(rt, label);
    list(rt, b" starts", first(starts, height.wrapping_add(1)));
    list(rt, b" columns", first(cols, entries));
    list(rt, b" values", first(vals, entries));
    say(rt, b"\n");
}

// The orders of the rows and the columns.
fn orders(rt: &impl Print, ro: &[u32], co: &[u32]) {
    list(rt, b"  R", ro);
    list(rt, b" C", co);
    say(rt, b"\n");
}

// What factoring a plan of n rows returned and left; the factors where it is done.
pub fn result(
    rt: &impl Print,
    name: &[u8],
    n: u32,
    factored: &Result<Ranks, Refusal>,
    ro: &[u32],
    co: &[u32],
    ls: &[u32],
    lc: &[u32],
    lv: &[u32],
    us: &[u32],
    uc: &[u32],
    uv: &[u32],
    work: &[u64],
) {
    line(rt, name, factored);
    cells(rt, ro, co, ls, lc, lv, us, uc, uv, work);
    if let Ok(ranks) = factored {
        orders(rt, ro, co);
        factor(rt, b"  L", n, ls, lc, lv);
        factor(rt, b"  U", ranks.rank, us, uc, uv);
    }
}

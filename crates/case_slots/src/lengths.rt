// Plan D with one list too short, or too long.
use crate::plan_d::{lend, lists};
use crate::run::{Lent, fitting};

fn with(rt: &impl Print, name: &[u8], owners: u32, s: u32, w: u32, work: u32) {
    lend(rt, name, &[1, 2, 4, 3, 5], Lent { owners, s, w, work });
}

fn values(rt: &impl Print, name: &[u8], h: &[u32]) {
    lend(rt, name, h, fitting(5, 5));
}

// A list of the plan or of the set, one too short or one too long.
fn set(
    rt: &impl Print,
    name: &[u8],
    starts: &[u32],
    ro: &[u32],
    co: &[u32],
    ls: &[u32],
    us: &[u32],
    uv: &[u32],
) {
    lists(
        rt,
        name,
        starts,
        ro,
        co,
        ls,
        us,
        uv,
        &[1, 2, 4, 3, 5],
        fitting(5, 5),
    );
}

pub fn sets(rt: &impl Print) {
    let starts = [0u32, 2, 4, 8, 10, 11];
    let more_starts = [0u32, 2, 4, 8, 10, 11, 11];
    let ro = [0u32, 3, 1, 4, 2];
    let more_ro = [0u32, 3, 1, 4, 2, 5];
    let co = [0u32, 2, 1, 4, 3];
    let more_co = [0u32, 2, 1, 4, 3, 5];
    let ls = [0u32, 1, 2, 3, 4, 6];
    let more_ls = [0u32, 1, 2, 3, 4, 6, 6];
    let us = [0u32, 2, 4, 6, 7];
    let more_us = [0u32, 2, 4, 6, 7, 7];
    let uv = [1u32, 4, 3, 1, 1, 5, 1];
    let more_uv = [1u32, 4, 3, 1, 1, 5, 1, 1];
    set(rt, b"D, 5 starts", &starts[..5], &ro, &co, &ls, &us, &uv);
    set(rt, b"D, 7 starts", &more_starts, &ro, &co, &ls, &us, &uv);
    set(rt, b"D, 4 rows in R", &starts, &ro[..4], &co, &ls, &us, &uv);
    set(rt, b"D, 6 rows in R", &starts, &more_ro, &co, &ls, &us, &uv);
    set(
        rt,
        b"D, 4 columns in C",
        &starts,
        &ro,
        &co[..4],
        &ls,
        &us,
        &uv,
    );
    set(
        rt,
        b"D, 6 columns in C",
        &starts,
        &ro,
        &more_co,
        &ls,
        &us,
        &uv,
    );
    set(
        rt,
        b"D, 5 starts of L",
        &starts,
        &ro,
        &co,
        &ls[..5],
        &us,
        &uv,
    );
    set(
        rt,
        b"D, 7 starts of L",
        &starts,
        &ro,
        &co,
        &more_ls,
        &us,
        &uv,
    );
    set(
        rt,
        b"D, 4 starts of U",
        &starts,
        &ro,
        &co,
        &ls,
        &us[..4],
        &uv,
    );
    set(
        rt,
        b"D, 6 starts of U",
        &starts,
        &ro,
        &co,
        &ls,
        &more_us,
        &uv,
    );
    set(
        rt,
        b"D, 6 values of U",
        &starts,
        &ro,
        &co,
        &ls,
        &us,
        &uv[..6],
    );
    set(
        rt,
        b"D, 8 values of U",
        &starts,
        &ro,
        &co,
        &ls,
        &us,
        &more_uv,
    );
}

pub fn all(rt: &impl Print) {
    with(rt, b"D, 4 owners", 4, 5, 5, 2048);
    with(rt, b"D, 6 owners", 6, 5, 5, 2048);
    with(rt, b"D, 4 cells for s", 5, 4, 5, 2048);
    with(rt, b"D, 6 cells for s", 5, 6, 5, 2048);
    with(rt, b"D, 4 cells for w", 5, 5, 4, 2048);
    with(rt, b"D, 6 cells for w", 5, 5, 6, 2048);
    with(rt, b"D, 2,047 cells in the working row", 5, 5, 5, 2047);
    with(rt, b"D, 2,049 cells in the working row", 5, 5, 5, 2049);
    with(rt, b"D, nothing lent", 0, 0, 0, 0);
    values(rt, b"D, 4 slot values", &[1, 2, 4, 3]);
    values(rt, b"D, 6 slot values", &[1, 2, 4, 3, 5, 0]);
    values(rt, b"D, one slot value, which is 7", &[7]);
}

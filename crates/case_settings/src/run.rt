// Runs a case: the settings are given from a certificate into a list of 9s, and what comes of it is printed.
use call_kernel::from_certificate::kernel_basis_from_certificate;
use case_print::parts::{first_bytes, within, within_row};
use case_print::{list, nonzero_row, number, outcome, say};

// Into lent lists; prints what was returned and left.
fn give(
    rt: &impl Print,
    name: &[u8],
    p: u32,
    n: u32,
    m: u32,
    starts: &[u32],
    cols: &[u32],
    vals: &[u32],
    owners: &[u8],
    cert: &[u8],
    basis: &mut [u32],
    work: &mut [u64],
) {
    let given = kernel_basis_from_certificate(
        p, n, m, starts, cols, vals, owners, cert, basis, work,
    );
    say(rt, name);
    say(rt, b":");
    outcome(rt, &given);
    list(rt, b" settings", basis);
    say(rt, b" row");
    number(rt, nonzero_row(work) as u64);
    say(rt, b"\n");
}

// Lends so many owners, and so many cells of 9s for the settings and in the working row.
pub fn run(
    rt: &impl Print,
    name: &[u8],
    p: u32,
    n: u32,
    m: u32,
    starts: &[u32],
    cols: &[u32],
    vals: &[u32],
    cert: &[u8],
    owners: u32,
    cells: u32,
    row: u32,
) {
    let owned = [9u8; 16];
    let mut basis = [9u32; 16];
    let mut work = [9u64; 2049];
    let a = within(&basis, cells);
    let b = within_row(&work, row);
    give(
        rt,
        name,
        p,
        n,
        m,
        starts,
        cols,
        vals,
        first_bytes(&owned, owners),
        cert,
        &mut basis[..a],
        &mut work[..b],
    );
}

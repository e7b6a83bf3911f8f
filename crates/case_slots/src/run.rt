// Runs a case: slot values are answered from stored factors and from their certificate, into lists of 9s, and what comes of it is printed.
use call_owned::write::write_certificate;
use call_slots::from_certificate::solve_slots_from_certificate;
use call_slots::from_factors::solve_slots_from_factors;
use case_print::parts::{first_bytes, first_size, within, within_row};
use case_print::{list, nonzero_row, number, refused, say};
use column_space::SlotVerdict;
use refusals::Refusal;

// How much is lent, by the number of cells.
#[derive(Clone, Copy)]
pub struct Lent {
    pub owners: u32,
    pub s: u32,
    pub w: u32,
    pub work: u32,
}

// What a plan of n slots and m words takes.
pub fn fitting(n: u32, m: u32) -> Lent {
    Lent {
        owners: m,
        s: m,
        w: n,
        work: 2048,
    }
}

fn verdict(rt: &impl Print, answer: Result<SlotVerdict, Refusal>) {
    match answer {
        Ok(SlotVerdict::Solved) => say(rt, b" solved"),
        Ok(SlotVerdict::Contradiction) => say(rt, b" contradiction"),
        Err(refusal) => {
            say(rt, b" refused");
            refused(rt, refusal);
        }
    }
}

// What was returned and left.
fn result(
    rt: &impl Print,
    name: &[u8],
    from: &[u8],
    answer: Result<SlotVerdict, Refusal>,
    s: &[u32],
    w: &[u32],
    work: &[u64],
) {
    say(rt, name);
    say(rt, from);
    verdict(rt, answer);
    list(rt, b" s", s);
    list(rt, b" w", w);
    say(rt, b" row");
    number(rt, nonzero_row(work) as u64);
    say(rt, b"\n");
}

// From stored factors, into lent lists; prints what was returned and left.
fn answer_from_factors(
    rt: &impl Print,
    name: &[u8],
    p: u32,
    n: u32,
    m: u32,
    starts: &[u32],
    cols: &[u32],
    vals: &[u32],
    owners: &[u8],
    r: u32,
    ro: &[u32],
    co: &[u32],
    ls: &[u32],
    lc: &[u32],
    lv: &[u32],
    us: &[u32],
    uc: &[u32],
    uv: &[u32],
    h: &[u32],
    s: &mut [u32],
    w: &mut [u32],
    work: &mut [u64],
) {
    let answer = solve_slots_from_factors(
        p, n, m, starts, cols, vals, owners, r, ro, co, ls, lc, lv, us, uc, uv, h, s, w, work,
    );
    result(rt, name, b", factors:", answer, s, w, work);
}

// Lends lists of 9s, as many cells of each as are to be lent.
fn from_factors(
    rt: &impl Print,
    name: &[u8],
    p: u32,
    n: u32,
    m: u32,
    starts: &[u32],
    cols: &[u32],
    vals: &[u32],
    owners: &[u8],
    r: u32,
    ro: &[u32],
    co: &[u32],
    ls: &[u32],
    lc: &[u32],
    lv: &[u32],
    us: &[u32],
    uc: &[u32],
    uv: &[u32],
    h: &[u32],
    lent: Lent,
) {
    let mut s = [9u32; 16];
    let mut w = [9u32; 16];
    let mut work = [9u64; 2049];
    let a = within(&s, lent.s);
    let b = within(&w, lent.w);
    let c = within_row(&work, lent.work);
    answer_from_factors(
        rt,
        name,
        p,
        n,
        m,
        starts,
        cols,
        vals,
        owners,
        r,
        ro,
        co,
        ls,
        lc,
        lv,
        us,
        uc,
        uv,
        h,
        &mut s[..a],
        &mut w[..b],
        &mut work[..c],
    );
}

// From a certificate, into lent lists; prints what was returned and left.
fn answer_from_bytes(
    rt: &impl Print,
    name: &[u8],
    p: u32,
    n: u32,
    m: u32,
    starts: &[u32],
    cols: &[u32],
    vals: &[u32],
    owners: &[u8],
    cert: &[u8],
    h: &[u32],
    s: &mut [u32],
    w: &mut [u32],
    work: &mut [u64],
) {
    let answer = solve_slots_from_certificate(
        p, n, m, starts, cols, vals, owners, cert, h, s, w, work,
    );
    result(rt, name, b", certificate:", answer, s, w, work);
}

// Lends lists of 9s, as many cells of each as are to be lent.
fn from_bytes(
    rt: &impl Print,
    name: &[u8],
    p: u32,
    n: u32,
    m: u32,
    starts: &[u32],
    cols: &[u32],
    vals: &[u32],
    owners: &[u8],
    cert: &[u8],
    h: &[u32],
    lent: Lent,
) {
    let mut s = [9u32; 16];
    let mut w = [9u32; 16];
    let mut work = [9u64; 2049];
    let a = within(&s, lent.s);
    let b = within(&w, lent.w);
    let c = within_row(&work, lent.work);
    answer_from_bytes(
        rt,
        name,
        p,
        n,
        m,
        starts,
        cols,
        vals,
        owners,
        cert,
        h,
        &mut s[..a],
        &mut w[..b],
        &mut work[..c],
    );
}

// The certificate of the set, in a buffer; how many bytes it has, 0 where the set has none.
fn certify(
    p: u32,
    n: u32,
    m: u32,
    starts: &[u32],
    cols: &[u32],
    vals: &[u32],
    r: u32,
    ro: &[u32],
    co: &[u32],
    ls: &[u32],
    lc: &[u32],
    lv: &[u32],
    us: &[u32],
    uc: &[u32],
    uv: &[u32],
    buffer: &mut [u8],
) -> usize {
    let owners = [9u8; 16];
    let mut work = [9u64; 2048];
    let written = write_certificate(
        p,
        n,
        m,
        starts,
        cols,
        vals,
        first_bytes(&owners, m),
        r,
        ro,
        co,
        ls,
        lc,
        lv,
        us,
        uc,
        uv,
        buffer,
        &mut work,
    );
    written.unwrap_or(0)
}

// Puts a byte at a place, where there is one.
fn put_byte(bytes: &mut [u8], place: usize, byte: u8) {
    if let Some(cell) = bytes.get_mut(place) {
        *cell = byte;
    }
}

// From the certificate of the set with the byte at one place changed, cut or lengthened to so many bytes.
pub fn run_changed(
    rt: &impl Print,
    name: &[u8],
    p: u32,
    n: u32,
    m: u32,
    starts: &[u32],
    cols: &[u32],
    vals: &[u32],
    r: u32,
    ro: &[u32],
    co: &[u32],
    ls: &[u32],
    lc: &[u32],
    lv: &[u32],
    us: &[u32],
    uc: &[u32],
    uv: &[u32],
    h: &[u32],
    lent: Lent,
    place: usize,
    byte: u8,
    size: usize,
) {
    let mut buffer = [9u8; 512];
    certify(
        p,
        n,
        m,
        starts,
        cols,
        vals,
        r,
        ro,
        co,
        ls,
        lc,
        lv,
        us,
        uc,
        uv,
        &mut buffer,
    );
    put_byte(&mut buffer, place, byte);
    let owners = [9u8; 16];
    let held = first_bytes(&owners, lent.owners);
    from_bytes(
        rt,
        name,
        p,
        n,
        m,
        starts,
        cols,
        vals,
        held,
        first_size(&buffer, size),
        h,
        lent,
    );
}

// A case from stored factors, and from their certificate.
pub fn run(
    rt: &impl Print,
    name: &[u8],
    p: u32,
    n: u32,
    m: u32,
    starts: &[u32],
    cols: &[u32],
    vals: &[u32],
    r: u32,
    ro: &[u32],
    co: &[u32],
    ls: &[u32],
    lc: &[u32],
    lv: &[u32],
    us: &[u32],
    uc: &[u32],
    uv: &[u32],
    h: &[u32],
    lent: Lent,
) {
    let owners = [9u8; 16];
    let held = first_bytes(&owners, lent.owners);
    from_factors(
        rt, name, p, n, m, starts, cols, vals, held, r, ro, co, ls, lc, lv, us, uc, uv, h, lent,
    );
    let mut buffer = [9u8; 512];
    let size = certify(
        p,
        n,
        m,
        starts,
        cols,
        vals,
        r,
        ro,
        co,
        ls,
        lc,
        lv,
        us,
        uc,
        uv,
        &mut buffer,
    );
    let cert = first_size(&buffer, size);
    from_bytes(rt, name, p, n, m, starts, cols, vals, held, cert, h, lent);
}

// Document 01's plan D: slot values that a setting gives, that contradict each other, and that are no residues.
use crate::run::{Lent, fitting, run, run_changed};

// D with its own set; some of the lists may be others, and lists of any length lent.
pub fn lists(
    rt: &impl Print,
    name: &[u8],
    starts: &[u32],
    ro: &[u32],
    co: &[u32],
    ls: &[u32],
    us: &[u32],
    uv: &[u32],
    h: &[u32],
    lent: Lent,
) {
    run(
        rt,
        name,
        7,
        5,
        5,
        starts,
        &[0, 2, 1, 3, 0, 1, 2, 3, 1, 2, 4],
        &[2, 1, 3, 1, 4, 3, 2, 1, 1, 5, 3],
        4,
        ro,
        co,
        ls,
        &[0, 1, 2, 3, 0, 2],
        &[2, 5, 3, 3, 4, 3],
        us,
        &[0, 2, 1, 2, 1, 3, 4],
        uv,
        h,
        lent,
    );
}

// D with its own set, and with lists of any length lent.
pub fn lend(rt: &impl Print, name: &[u8], h: &[u32], lent: Lent) {
    lists(
        rt,
        name,
        &[0, 2, 4, 8, 10, 11],
        &[0, 3, 1, 4, 2],
        &[0, 2, 1, 4, 3],
        &[0, 1, 2, 3, 4, 6],
        &[0, 2, 4, 6, 7],
        &[1, 4, 3, 1, 1, 5, 1],
        h,
        lent,
    );
}

// D's certificate with the byte at one place changed, and of so many bytes, with a value of 7 in the last slot.
fn changed(rt: &impl Print, name: &[u8], place: usize, byte: u8, size: usize) {
    run_changed(
        rt,
        name,
        7,
        5,
        5,
        &[0, 2, 4, 8, 10, 11],
        &[0, 2, 1, 3, 0, 1, 2, 3, 1, 2, 4],
        &[2, 1, 3, 1, 4, 3, 2, 1, 1, 5, 3],
        4,
        &[0, 3, 1, 4, 2],
        &[0, 2, 1, 4, 3],
        &[0, 1, 2, 3, 4, 6],
        &[0, 1, 2, 3, 0, 2],
        &[2, 5, 3, 3, 4, 3],
        &[0, 2, 4, 6, 7],
        &[0, 2, 1, 2, 1, 3, 4],
        &[1, 4, 3, 1, 1, 5, 1],
        &[1, 2, 4, 3, 7],
        fitting(5, 5),
        place,
        byte,
        size,
    );
}

// The check of the certificate comes before the values: D's has 217 bytes, R from 29 on, L's values from 117 on, U's from 189 on.
pub fn certificates(rt: &impl Print) {
    changed(rt, b"D, one byte short", 512, 0, 216);
    changed(rt, b"D, one byte long", 217, 0, 218);
    changed(rt, b"D, version 2", 3, 2, 217);
    changed(rt, b"D, a row twice", 29, 3, 217);
    changed(rt, b"D, rank 6", 17, 6, 217);
    changed(rt, b"D, U[0][0] = 2", 189, 2, 217);
    changed(rt, b"D, L[3][3] = 4", 129, 4, 217);
    changed(rt, b"D, nothing changed", 512, 0, 217);
}

// The same with lists of their lengths.
fn show(rt: &impl Print, name: &[u8], h: &[u32]) {
    lend(rt, name, h, fitting(5, 5));
}

pub fn settings(rt: &impl Print) {
    show(rt, b"D, a setting", &[1, 2, 4, 3, 5]);
    show(rt, b"D, all slots 0", &[0, 0, 0, 0, 0]);
    show(rt, b"D, one pivot slot alone", &[0, 0, 0, 0, 1]);
    show(rt, b"D, the largest residues", &[6, 6, 4, 6, 6]);
}

pub fn contradictions(rt: &impl Print) {
    show(rt, b"D, the dependent slot is one more", &[1, 2, 5, 3, 5]);
    show(rt, b"D, the dependent slot alone", &[0, 0, 1, 0, 0]);
    show(rt, b"D, a pivot slot that it depends on", &[1, 0, 0, 0, 0]);
}

pub fn values(rt: &impl Print) {
    show(rt, b"D, 7 at the first slot", &[7, 2, 4, 3, 5]);
    show(rt, b"D, 7 at the last slot", &[1, 2, 4, 3, 7]);
    show(rt, b"D, 7 at two slots", &[1, 8, 4, 7, 5]);
    show(
        rt,
        b"D, 4294967295 at the dependent slot",
        &[1, 2, 4294967295, 3, 5],
    );
}

// Small plans: without slots or words, sets of another maker whose dependent rows fall, other moduli, and sets that do not pass.
use crate::run::{fitting, run};

// No slots, no words, and neither.
pub fn sizes(rt: &impl Print) {
    run(
        rt,
        b"0 by 0",
        7,
        0,
        0,
        &[0],
        &[],
        &[],
        0,
        &[],
        &[],
        &[0],
        &[],
        &[],
        &[0],
        &[],
        &[],
        &[],
        fitting(0, 0),
    );
    run(
        rt,
        b"0 by 3",
        7,
        0,
        3,
        &[0],
        &[],
        &[],
        0,
        &[],
        &[0, 1, 2],
        &[0],
        &[],
        &[],
        &[0],
        &[],
        &[],
        &[],
        fitting(0, 3),
    );
    wordless(rt, b"3 by 0, all slots 0", &[0, 0, 0]);
    wordless(rt, b"3 by 0, the last slot", &[0, 0, 4]);
    wordless(rt, b"3 by 0, two slots", &[0, 2, 5]);
}

fn wordless(rt: &impl Print, name: &[u8], h: &[u32]) {
    run(
        rt,
        name,
        7,
        3,
        0,
        &[0, 0, 0, 0],
        &[],
        &[],
        0,
        &[0, 1, 2],
        &[],
        &[0, 0, 0, 0],
        &[],
        &[],
        &[0],
        &[],
        &[],
        h,
        fitting(3, 0),
    );
}

// Four slots of two words: twice, three times and six times the first, by a set with the rows in the order given.
fn multiples(rt: &impl Print, name: &[u8], ro: &[u32], lv: &[u32], h: &[u32]) {
    run(
        rt,
        name,
        7,
        4,
        2,
        &[0, 2, 4, 6, 8],
        &[0, 1, 0, 1, 0, 1, 0, 1],
        &[1, 5, 2, 3, 3, 1, 6, 2],
        1,
        ro,
        &[0, 1],
        &[0, 1, 2, 3, 4],
        &[0, 0, 0, 0],
        lv,
        &[0, 2],
        &[0, 1],
        &[1, 5],
        h,
        fitting(4, 2),
    );
}

// Of the contradicting slots the lowest-numbered counts, wherever it stands in the order.
pub fn falling(rt: &impl Print) {
    multiples(
        rt,
        b"multiples, a setting",
        &[0, 1, 2, 3],
        &[1, 2, 3, 6],
        &[5, 3, 1, 2],
    );
    multiples(
        rt,
        b"multiples, rising",
        &[0, 1, 2, 3],
        &[1, 2, 3, 6],
        &[5, 4, 1, 0],
    );
    multiples(
        rt,
        b"multiples, falling",
        &[0, 3, 2, 1],
        &[1, 6, 3, 2],
        &[5, 4, 1, 0],
    );
    multiples(
        rt,
        b"multiples, the pivot last",
        &[3, 2, 1, 0],
        &[6, 3, 2, 1],
        &[5, 4, 1, 0],
    );
    multiples(
        rt,
        b"multiples, one slot contradicts",
        &[2, 0, 3, 1],
        &[3, 1, 6, 2],
        &[5, 3, 1, 0],
    );
    multiples(
        rt,
        b"multiples, the pivot slot is 0",
        &[0, 3, 2, 1],
        &[1, 6, 3, 2],
        &[0, 0, 1, 1],
    );
}

// Two slots, the second p - 1 times the first.
fn opposite(rt: &impl Print, name: &[u8], p: u32, last: u32, h: &[u32]) {
    run(
        rt,
        name,
        p,
        2,
        1,
        &[0, 1, 2],
        &[0, 0],
        &[1, last],
        1,
        &[0, 1],
        &[0],
        &[0, 1, 2],
        &[0, 0],
        &[1, last],
        &[0, 1],
        &[0],
        &[1],
        h,
        fitting(2, 1),
    );
}

pub fn moduli(rt: &impl Print) {
    opposite(rt, b"p 2, a setting", 2, 1, &[1, 1]);
    opposite(rt, b"p 2, a contradiction", 2, 1, &[1, 0]);
    opposite(
        rt,
        b"p 4294967291, a setting",
        4294967291,
        4294967290,
        &[4294967290, 1],
    );
    opposite(
        rt,
        b"p 4294967291, a contradiction",
        4294967291,
        4294967290,
        &[4294967290, 4294967290],
    );
    opposite(
        rt,
        b"p 4294967291, a value of p",
        4294967291,
        4294967290,
        &[1, 4294967291],
    );
    opposite(rt, b"p 4, no prime", 4, 3, &[1, 9]);
}

// The check of the set comes before the values.
pub fn faults(rt: &impl Print) {
    multiples(
        rt,
        b"multiples, a row twice, and a value of 7",
        &[0, 1, 2, 2],
        &[1, 2, 3, 6],
        &[5, 3, 7, 2],
    );
    multiples(
        rt,
        b"multiples, another product, and a value of 7",
        &[0, 1, 2, 3],
        &[1, 2, 4, 6],
        &[5, 3, 7, 2],
    );
    multiples(
        rt,
        b"multiples, the set passes, and a value of 7",
        &[0, 1, 2, 3],
        &[1, 2, 3, 6],
        &[5, 3, 7, 2],
    );
}

// Document 01's plan D: in little room, and with one thing changed, so that factoring refuses it.
use case_run::change::{Change, Part};
use case_run::run::run;

fn plan_d(rt: &impl Print, name: &[u8], l: u32, u: u32, change: Option<Change>) {
    run(
        rt,
        name,
        b"7\n5 5 M\n1 1 2\n1 3 1\n2 2 3\n2 4 1\n3 1 4\n3 2 3\n3 3 2\n3 4 1\n4 2 1\n4 3 5\n5 5 3\n0 0 0\n",
        l,
        u,
        change,
    );
}

// D with room for l entries of L and u of U.
fn room(rt: &impl Print, name: &[u8], l: u32, u: u32) {
    plan_d(rt, name, l, u, None);
}

// D with just the room it takes, and with one thing changed.
fn changed(rt: &impl Print, name: &[u8], part: Part, to: u32) {
    plan_d(rt, name, 6, 7, Some(Change { part, to }));
}

pub fn rooms(rt: &impl Print) {
    room(rt, b"D, room 6 and 7", 6, 7);
    room(rt, b"D, room 8 and 9", 8, 9);
    room(rt, b"D, L room 5", 5, 7);
    room(rt, b"D, L room 4", 4, 7);
    room(rt, b"D, U room 6", 6, 6);
    room(rt, b"D, room 4 and 6", 4, 6);
    room(rt, b"D, no room for L", 0, 7);
    room(rt, b"D, no room for U", 6, 0);
}

// The same, named by its rooms.
fn rooms_of(rt: &impl Print, l: u32, u: u32) {
    let _ = print!(rt; "D, rooms {l} {u}");
    room(rt, b"", l, u);
}

// Every room of U up to one more than D takes.
fn upper_rooms(rt: &impl Print, l: u32) {
    for u in 0..9 {
        rooms_of(rt, l, u);
    }
}

// Every room of L and U up to one more than D takes.
pub fn sweep(rt: &impl Print) {
    for l in 0..8 {
        upper_rooms(rt, l);
    }
}

// 1; and 8 for 5, which is a value of D
pub fn moduli(rt: &impl Print) {
    changed(rt, b"D, p 0", Part::P, 0);
    changed(rt, b"D, p 1", Part::P, 1);
    changed(rt, b"D, p 4", Part::P, 4);
    changed(rt, b"D, p 65520", Part::P, 65520);
    changed(rt, b"D, p 65522", Part::P, 65522);
    changed(rt, b"D, p 4294967292", Part::P, 4294967292);
    changed(rt, b"D, p 5", Part::P, 5);
}

// 2 past a limit; 8 where the entries do not fit the sizes
pub fn sizes(rt: &impl Print) {
    changed(rt, b"D, n 2049", Part::N, 2049);
    changed(rt, b"D, m 2049", Part::M, 2049);
    changed(rt, b"D, entries 16385", Part::Entries, 16385);
    changed(rt, b"D, n 4", Part::N, 4);
    changed(rt, b"D, m 4", Part::M, 4);
    changed(rt, b"D, entries 10", Part::Entries, 10);
    changed(rt, b"D, entries 12", Part::Entries, 12);
}

// 8
pub fn forms(rt: &impl Print) {
    changed(rt, b"D, first start 1", Part::FirstStart, 1);
    changed(rt, b"D, columns 2 2", Part::FirstColumn, 2);
    changed(rt, b"D, columns 3 2", Part::FirstColumn, 3);
    changed(rt, b"D, first value 0", Part::FirstValue, 0);
    changed(rt, b"D, first value 7", Part::FirstValue, 7);
}

// 9
pub fn plan_lengths(rt: &impl Print) {
    changed(rt, b"D, starts 5", Part::Starts, 5);
    changed(rt, b"D, starts 7", Part::Starts, 7);
    changed(rt, b"D, columns 10", Part::Columns, 10);
    changed(rt, b"D, columns 12", Part::Columns, 12);
    changed(rt, b"D, values 10", Part::Values, 10);
    changed(rt, b"D, values 12", Part::Values, 12);
    changed(rt, b"D, owners 4", Part::Owners, 4);
    changed(rt, b"D, owners 6", Part::Owners, 6);
}

// 9
pub fn order_lengths(rt: &impl Print) {
    changed(rt, b"D, R 4", Part::R, 4);
    changed(rt, b"D, R 6", Part::R, 6);
    changed(rt, b"D, C 4", Part::C, 4);
    changed(rt, b"D, C 6", Part::C, 6);
    changed(rt, b"D, working row 2047", Part::Work, 2047);
    changed(rt, b"D, working row 2049", Part::Work, 2049);
}

// 9
pub fn lower_lengths(rt: &impl Print) {
    changed(rt, b"D, L starts 5", Part::LStarts, 5);
    changed(rt, b"D, L starts 7", Part::LStarts, 7);
    changed(rt, b"D, L columns 5", Part::LColumns, 5);
    changed(rt, b"D, L columns 7", Part::LColumns, 7);
    changed(rt, b"D, L values 5", Part::LValues, 5);
    changed(rt, b"D, L values 7", Part::LValues, 7);
}

// 9
pub fn upper_lengths(rt: &impl Print) {
    changed(rt, b"D, U starts 5", Part::UStarts, 5);
    changed(rt, b"D, U starts 7", Part::UStarts, 7);
    changed(rt, b"D, U columns 6", Part::UColumns, 6);
    changed(rt, b"D, U columns 8", Part::UColumns, 8);
    changed(rt, b"D, U values 6", Part::UValues, 6);
    changed(rt, b"D, U values 8", Part::UValues, 8);
}

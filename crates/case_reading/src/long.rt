// A text of 65,536 bytes that states a plan: `2`, `2048 2048 M`, `1 1 101`, 5,459 lines `i j 1` with i and j of four digits, `0 0 0`.
use std::io::Write;

const LINES: usize = 5459;

// The place of the last of the lines `i j 1`.
const LAST: usize = 65518;

// Writes the k-th of the lines `i j 1`, which has twelve bytes with its line feed. The texts have room for all that is written.
fn put_line(out: &mut impl Write, k: usize) {
    let _ = writeln!(out, "{} {} 1", 1000 + k / 1000, 1000 + k % 1000);
}

pub fn fill(text: &mut [u8; 65537]) {
    let mut rest = text.as_mut_slice();
    let _ = rest.write_all(b"2\n2048 2048 M\n1 1 101\n");
    for k in 0..LINES {
        put_line(&mut rest, k);
    }
    let _ = rest.write_all(b"0 0 0\n");
}

// The first and the last of the lines `i j 1` change places.
pub fn exchange_ends(text: &mut [u8; 65537]) {
    put_line(&mut &mut text[22..], LINES - 1);
    put_line(&mut &mut text[LAST..], 0);
}

// The line that stands first once they are exchanged stands last too.
pub fn repeat_end(text: &mut [u8; 65537]) {
    put_line(&mut &mut text[LAST..], LINES - 1);
}

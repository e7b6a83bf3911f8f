// Runs a case: its text is read into lists of 9s, and what comes of it is printed.
ghost use Rattle.std.specs.Prelude.{◌≤◌, length};

use crate::print;
use case_print::say;

// Reads a text and prints what comes of it.
fn show(
    rt: &impl Print,
    name: &str,
    text: &[u8],
    starts: &mut [u32],
    cols: &mut [u32],
    vals: &mut [u32],
    owners: &mut [u8],
) {
    let read = text_owners::read(text, starts, cols, vals, owners);
    print::line(rt, name, &read);
    say(rt, b" cells");
    case_print::number(rt, case_print::nonzero(starts) as u64);
    case_print::number(rt, case_print::nonzero(cols) as u64);
    case_print::number(rt, case_print::nonzero(vals) as u64);
    case_print::number(rt, case_print::nonzero_bytes(owners) as u64);
    say(rt, b"\n");
}

// A case is its name, a bar and its text.
fn show_case(
    rt: &impl Print,
    case: &str,
    starts: &mut [u32],
    cols: &mut [u32],
    vals: &mut [u32],
    owners: &mut [u8],
) {
    if let Some((name, text)) = case.split_once('|') {
        show(rt, name, text.as_bytes(), starts, cols, vals, owners);
    }
}

// Reads a case's text into the first a, b, c and d cells of the lists.
fn show_parts(
    rt: &impl Print,
    case: &str,
    starts: &mut [u32],
    a: usize,
    cols: &mut [u32],
    b: usize,
    vals: &mut [u32],
    c: usize,
    owners: &mut [u8],
    d: usize,
)
    requires { (a ≤ length starts.old) × (b ≤ length cols.old) × (c ≤ length vals.old) × (d ≤ length owners.old) }
{
    show_case(
        rt,
        case,
        &mut starts[..a],
        &mut cols[..b],
        &mut vals[..c],
        &mut owners[..d],
    );
}

// Reads a case's text into lists of these lengths.
pub fn length_case(rt: &impl Print, case: &str, a: usize, b: usize, c: usize, d: usize)
    requires { (a ≤ 2050) × (b ≤ 16) × (c ≤ 16) × (d ≤ 2049) }
{
    let mut starts = [9u32; 2050];
    let mut cols = [9u32; 16];
    let mut vals = [9u32; 16];
    let mut owners = [9u8; 2049];
    show_parts(
        rt,
        case,
        &mut starts,
        a,
        &mut cols,
        b,
        &mut vals,
        c,
        &mut owners,
        d,
    );
}

// Reads a case's text into lists with room for so many entries.
pub fn room_case(rt: &impl Print, case: &str, room: usize)
    requires { room ≤ 16 }
{
    length_case(rt, case, 2049, room, room, 2048);
}

pub fn plain_case(rt: &impl Print, case: &str) {
    room_case(rt, case, 16);
}

// Reads a case's text and prints the first cells of each list too.
pub fn cells_case(rt: &impl Print, case: &str) {
    let mut starts = [9u32; 2049];
    let mut cols = [9u32; 12];
    let mut vals = [9u32; 12];
    let mut owners = [9u8; 2048];
    show_case(rt, case, &mut starts, &mut cols, &mut vals, &mut owners);
    print::list_line(rt, b"  starts", &starts[..7]);
    print::list_line(rt, b"  columns", &cols);
    print::list_line(rt, b"  values", &vals);
    print::bytes_line(rt, b"  owners", &owners, 7);
}

// Reads the first n bytes of a text into lists with room for 5,460 entries.
pub fn long_case(rt: &impl Print, name: &str, text: &[u8], n: usize)
    requires { n ≤ length text.now }
{
    let mut starts = [9u32; 2049];
    let mut cols = [9u32; 5460];
    let mut vals = [9u32; 5460];
    let mut owners = [9u8; 2048];
    show(
        rt,
        name,
        &text[..n],
        &mut starts,
        &mut cols,
        &mut vals,
        &mut owners,
    );
}

// What the programs that run cases share: what they print of numbers, results and lists, on standard output, and the first cells of lists.
#![tactic(auto)]

ghost use Rattle.std.specs.Prelude.{◌≤◌, length};

use refusals::Refusal;

pub mod parts;

// Prints a text. A write that fails is not said: what the programs print is compared whole.
pub fn say(rt: &impl Print, bytes: &[u8]) {
    let _ = rt.write_all(bytes);
}

// A space and a number.
pub fn number(rt: &impl Print, n: u64) {
    let _ = print!(rt; " {n}");
}

// A refusal's number and its detail.
pub fn refused(rt: &impl Print, refusal: Refusal) {
    let _ = print!(rt; " {} {}", u32::from(refusal.fault), refusal.detail);
}

// What a call was refused by, or 0 and 0 where it was not.
pub fn outcome<T>(rt: &impl Print, returned: &Result<T, Refusal>) {
    match returned {
        Ok(_) => say(rt, b" 0 0"),
        Err(refusal) => refused(rt, *refusal),
    }
}

// A label and the numbers of a list.
pub fn list(rt: &impl Print, label: &[u8], numbers: &[u32]) {
    say(rt, label);
    for n in numbers {
        number(rt, *n as u64);
    }
}

// A label and the first bytes of a list, so many.
pub fn first_bytes(rt: &impl Print, label: &[u8], bytes: &[u8], count: usize)
    requires { count ≤ length bytes.now }
{
    say(rt, label);
    for b in &bytes[..count] {
        number(rt, *b as u64);
    }
}

// How many numbers of a list are not 0.
pub fn nonzero(numbers: &[u32]) -> usize {
    numbers.iter().filter(|n| **n != 0).count()
}

// How many bytes of a list are not 0.
pub fn nonzero_bytes(bytes: &[u8]) -> usize {
    bytes.iter().filter(|b| **b != 0).count()
}

// How many cells of a working row are not 0.
pub fn nonzero_row(row: &[u64]) -> usize {
    row.iter().filter(|x| **x != 0).count()
}

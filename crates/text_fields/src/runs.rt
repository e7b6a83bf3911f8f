// Fields that are numbers, read in one pass: the digits first, then whether a field ends where they do.
ghost use Rattle.std.specs.Prelude.{◌≡◌, ◌-◌, ◌≤◌, ◌<◌, length, get_or, eqb};
ghost use Rattle.text_fields.specs.Scan.{size_from};
ghost use Rattle.text_fields.specs.Runs.{Limit, DigitRun, well_written, field_at};

use crate::numbers::ZERO;

// A run of digits: the number that they say, and the place after them.
#[derive(Clone, Copy, Debug, PartialEq, Eq)]
pub struct Run {
    pub value: u64,
    pub end: usize,
}

// A field that is a number without sign, and the place after it.
#[derive(Clone, Copy, Debug, PartialEq, Eq)]
pub struct Field {
    pub n: u64,
    pub end: usize,
}

// Where a run that starts at `from` ends at the latest: after ten digits, or at the line's end.
fn run_limit(size: usize, from: usize) -> usize
    requires { from ≤ size }
    ensures { Limit size from result }
{
    if 10 < size - from {
        return from + 10;
    }
    size
}

// The digits from `from` on, ten at most.
fn digit_run(line: &[u8], from: usize) -> Run
    requires { from ≤ length line.now }
    ensures { DigitRun line.now from result.value result.end }
{
    let stop = run_limit(line.len(), from);
    let mut value: u64 = 0;
    for end in from..stop {
        let b = line[end];
        if !b.is_ascii_digit() {
            return Run { value, end };
        }
        value = value * 10 + u64::from(b - ZERO);
    }
    Run { value, end: stop }
}

// Whether a field ends at a place, a separator or the line's end: the piece from there on is empty.
fn ends_here(line: &[u8], end: usize, separator: u8) -> bool
    requires { end ≤ length line.now }
    ensures { result ≡ eqb (size_from separator line.now end) 0 }
{
    if end < line.len() {
        return line[end] == separator;
    }
    true
}

// Whether the digits from `from` up to `end` write a number: at least one, and no zero before others.
fn well_written(line: &[u8], from: usize, end: usize) -> bool
    requires { (from ≤ end) × (end ≤ length line.now) }
    ensures { result ≡ well_written (get_or line.now from 0) (end - from) }
{
    if end == from {
        return false;
    }
    if line[from] == ZERO {
        return end - from == 1;
    }
    true
}

// The number that the field from `from` on says.
pub fn field_from(line: &[u8], from: usize, separator: u8) -> Option<Field>
    requires { (from ≤ length line.now) × (separator < 48) }
    ensures { result ≡ field_at separator line.now from }
{
    let run = digit_run(line, from);
    if !ends_here(line, run.end, separator) || !well_written(line, from, run.end) {
        return None;
    }
    Some(Field {
        n: run.value,
        end: run.end,
    })
}

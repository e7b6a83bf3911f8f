// What a line `i j v` says: three fields with one space between. The first two are read in one pass; what is left is the third.
ghost use Rattle.std.specs.Prelude.{◌≡◌};
ghost use Rattle.text_judge.specs.Line.{line_of};
ghost use Rattle.text_judge.specs.Starts.{Starts};

use text_fields::numbers::{Signed, signed_of};
use text_fields::runs::field_from;

// The byte between two fields.
pub const SPACE: u8 = b' ';

// How a line starts: two numbers, each with a space after it, and the place of what is left.
#[derive(Clone, Copy, Debug, PartialEq, Eq)]
pub struct Start {
    pub i: u64,
    pub j: u64,
    pub rest: usize,
}

// The three numbers of a line.
#[derive(Clone, Copy, Debug, PartialEq, Eq)]
pub struct Triple {
    pub i: u64,
    pub j: u64,
    pub v: Signed,
}

// The two numbers that a line starts with.
pub fn start_of(line: &[u8]) -> Option<Start>
    ensures { Starts line.now result }
{
    let first = field_from(line, 0, SPACE)?;
    if first.end == line.len() {
        return None;
    }
    let second = field_from(line, first.end + 1, SPACE)?;
    if second.end == line.len() {
        return None;
    }
    Some(Start {
        i: first.n,
        j: second.n,
        rest: second.end + 1,
    })
}

// What a line says.
pub fn line_of(line: &[u8]) -> Option<Triple>
    ensures { result ≡ line_of line.now }
{
    let Start { i, j, rest } = start_of(line)?;
    let v = signed_of(&line[rest..])?;
    Some(Triple { i, j, v })
}

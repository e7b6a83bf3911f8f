// What a line of the plan is judged to be: an entry, the last line, or a refusal.
ghost use Rattle.std.specs.Prelude.{◌≡◌, ◌<◌};
ghost use Rattle.text_judge.specs.Line.{line_of};
ghost use Rattle.text_judge.specs.Judge.{precedes, may_stand, judge_line, verdict_of};
ghost use Rattle.text_judge.specs.Sight.{judged_from, seen_as};

use crate::line::{Triple, line_of};
use crate::sight::{Sight, sight_of};
use refusals::Fault;
use residue::Modulus;

// The modulus and the sizes of a plan.
#[derive(Clone, Copy)]
pub struct Sizes {
    pub modulus: Modulus,
    pub n: u32,
    pub m: u32,
}

// What a line that is not refused is judged to be: the last line, or the entry v at i and j, which count from 1.
#[derive(Clone, Copy, Debug, PartialEq, Eq)]
pub enum Judged {
    Last,
    Entry { i: u64, j: u64, v: u32 },
}

// Whether a and b stand before i and j: by row, then by column.
fn is_before(a: u64, b: u64, i: u64, j: u64) -> bool
    ensures { result ≡ precedes a b i j }
{
    a < i || (a == i && b < j)
}

// Whether a line may stand after the one at a and b.
fn may_stand(a: u64, b: u64, line: Option<Triple>) -> bool
    ensures { result ≡ may_stand (precedes a b) line }
{
    match line {
        Some(Triple { i, j, v: _ }) => is_before(a, b, i, j),
        None => false,
    }
}

// The verdict on a line, where `stands` says whether it may stand here: 5 comes before 6 and 7.
fn verdict_from(stands: bool, seen: Sight) -> Result<Judged, Fault>
    ensures { verdict_of result ≡ judged_from stands (seen_as seen) }
{
    match seen {
        Sight::Stops(fault) => Err(fault),
        Sight::Finishes => Ok(Judged::Last),
        Sight::Stands { i, j, v } => {
            if stands {
                Ok(Judged::Entry { i, j, v })
            } else {
                Err(Fault::RepeatedPlace)
            }
        }
        Sight::Fails { fault, i: _, j: _ } => {
            if stands {
                Err(fault)
            } else {
                Err(Fault::RepeatedPlace)
            }
        }
    }
}

// The line of these bytes, after the one at a and b; `full` says whether the entry storage is used up.
pub fn judge_after(a: u64, b: u64, full: bool, s: Sizes, bytes: &[u8]) -> Result<Judged, Fault>
    requires { 0 < s.modulus.p }
    ensures { verdict_of result ≡ judge_line (may_stand (precedes a b) (line_of bytes.now)) full s (line_of bytes.now) }
{
    let line = line_of(bytes);
    let stands = may_stand(a, b, line);
    verdict_from(stands, sight_of(full, s, line))
}

// Reads a plan's own text, which ends with the line `0 0 0` (document 01, "Plan text"; triples in any order, document 02, slip 2), into lent lists.
// `text_owners` has the public call, which reads what may follow it too.
#![tactic(auto)]

ghost use Rattle.std.specs.Prelude.{◌≡◌, [], length, drop};
ghost use Rattle.text_fields.specs.Pieces.{pieces};
ghost use Rattle.text_opening.specs.Reading.{fresh, triples, read_of};
ghost use Rattle.text_plan.specs.Call.{read_answer_of, call_of, reading_of, Gives};
ghost use Rattle.text_plan.specs.Needs.{NothingStored, ReadingReady, lines_of, Settles};

use filling::extend_starts;
use limits::START_CELLS;
use lists::clear;
use refusals::{Fault, Refusal, demand};
use sorting::read_any_order;
use text_judge::judge::Sizes;
use text_lines::Place;
use text_opening::opening::{Opened, open};
use triples::{Stored, read_triples};

pub mod collecting;
pub mod filling;
pub mod sorting;
pub mod triples;

// What a text that is not refused states: the modulus, the sizes and the number of entries.
#[derive(Clone, Copy, Debug, PartialEq, Eq)]
pub struct Stated {
    pub p: u32,
    pub n: u32,
    pub m: u32,
    pub count: u32,
}

// The lines from the third one on, into lists that are all zero. A text whose triples rise is read once, as it stands; only where a triple
// does not come after the one before are the lines read once more and sorted.
fn read_lines(
    text: &[u8],
    third: Place,
    s: Sizes,
    starts: &mut [u32],
    cols: &mut [u32],
    vals: &mut [u32],
) -> Result<Stored, Refusal>
    requires { ReadingReady text.now third s starts.old cols.old vals.old }
    ensures { Settles (length cols.old) (triples fresh s (length cols.old) third.line [] (pieces 10 (drop third.at text.now))) (lines_of result) starts.new cols.new vals.new }
{
    match read_triples(text, third, s, starts, cols, vals) {
        Ok(stored) => Ok(stored),
        Err(refusal) => {
            if refusal.fault != Fault::RepeatedPlace {
                return Err(refusal);
            }
            clear(starts);
            clear(cols);
            clear(vals);
            read_any_order(text, third, s, starts, cols, vals)
        }
    }
}

// Reads into lists of the right lengths that are all zero.
fn fill(
    text: &[u8],
    starts: &mut [u32],
    cols: &mut [u32],
    vals: &mut [u32],
) -> Result<Stated, Refusal>
    requires { NothingStored starts.old cols.old vals.old }
    ensures { Gives (read_answer_of (length cols.old) (read_of (length cols.old) text.now)) (reading_of result) starts.new cols.new vals.new }
{
    let Opened { s, third } = open(text)?;
    match read_lines(text, third, s, starts, cols, vals) {
        Err(refusal) => {
            clear(starts);
            clear(cols);
            clear(vals);
            Err(refusal)
        }
        Ok(Stored { count, row }) => {
            extend_starts(starts, row as usize, s.n as usize, count);
            Ok(Stated {
                p: s.modulus.p,
                n: s.n,
                m: s.m,
                count,
            })
        }
    }
}

// Takes: a plan's own text, its triples in any order; 2,049 row starts, and columns and values of one length, all lent.
// Gives: the modulus, the sizes and the number of entries, and the plan in the lent lists, zero past its end.
// Refuses with: 9 for a wrong length; 2 for a longer text; then the first line at fault: 3, then 1, 2, or 4, 5, 6, 7.
// Leaves: after a refusal every lent list all zero. The text never changes.
pub fn read(
    text: &[u8],
    starts: &mut [u32],
    cols: &mut [u32],
    vals: &mut [u32],
) -> Result<Stated, Refusal>
    ensures { Gives (call_of text.now (length starts.old) (length cols.old) (length vals.old)) (reading_of result) starts.new cols.new vals.new }
{
    clear(starts);
    clear(cols);
    clear(vals);
    demand(starts.len() == START_CELLS, Fault::WrongLength)?;
    demand(cols.len() == vals.len(), Fault::WrongLength)?;
    fill(text, starts, cols, vals)
}

// The lines from the third one on, as they stand if their triples rise.
ghost use Rattle.std.specs.Prelude.{[], length, drop};
ghost use Rattle.text_fields.specs.Pieces.{pieces};
ghost use Rattle.text_opening.specs.Reading.{triples};
ghost use Rattle.text_plan.specs.Rising.{rises};
ghost use Rattle.text_plan.specs.Needs.{ReadingReady, Shows, lines_of};

use crate::filling::store;
use refusals::{Fault, Refusal};
use text_judge::judge::{Judged, Sizes, judge_after};
use text_lines::{Place, line_from, next_from};

// What they come to where they are not refused: the number of entries and the row of the last triple.
#[derive(Clone, Copy, Debug, PartialEq, Eq)]
pub struct Stored {
    pub count: u32,
    pub row: u64,
}

// Reads the lines from the one at `from` on, whose triples have to rise: 5 where one does not.
pub fn read_triples(
    text: &[u8],
    from: Place,
    s: Sizes,
    starts: &mut [u32],
    cols: &mut [u32],
    vals: &mut [u32],
) -> Result<Stored, Refusal>
    requires { ReadingReady text.now from s starts.old cols.old vals.old }
    ensures { Shows (length cols.old) (triples rises s (length cols.old) from.line [] (pieces 10 (drop from.at text.now))) (lines_of result) starts.new cols.new vals.new }
{
    let room = cols.len();
    let mut here = from;
    let mut a: u64 = 0;
    let mut b: u64 = 0;
    let mut count: u32 = 0;
    // A while: only the end of a line says where the next one starts.
    while here.at < text.len() {
        let l = line_from(text, here.at, here.line);
        if here.at + l.len() == text.len() {
            return Err(Refusal {
                fault: Fault::Malformed,
                detail: here.line,
            });
        }
        let next = next_from(text, here.at, here.line, l.len());
        let judged = match judge_after(a, b, room <= count as usize, s, l) {
            Ok(judged) => judged,
            Err(fault) => {
                return Err(Refusal {
                    fault,
                    detail: here.line,
                });
            }
        };
        match judged {
            Judged::Last => {
                if next.at == text.len() {
                    return Ok(Stored { count, row: a });
                }
                return Err(Refusal {
                    fault: Fault::Malformed,
                    detail: next.line,
                });
            }
            Judged::Entry { i, j, v } => {
                count = store(starts, cols, vals, count, a, i, j, v);
                a = i;
                b = j;
            }
        }
        here = next;
    }
    Err(Refusal {
        fault: Fault::Malformed,
        detail: here.line,
    })
}

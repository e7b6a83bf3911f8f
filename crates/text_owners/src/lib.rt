// Reads a plan text with the owners of its words (document 01, "Plan text"; document 02, slip 4) into lent lists. The plan's own text ends with
// its first line `0 0 0` and is read by `text_plan`; what follows it says the owners. A text that is accepted ends with the plan or with one line
// more, so the plan's end is guessed from the text's end first: only where that does not pass is the line `0 0 0` looked for.
#![tactic(auto)]

ghost use Rattle.std.specs.Prelude.{◌≡◌, length};
ghost use Rattle.text_plan.specs.Call.{reading_of};
ghost use Rattle.text_owners.specs.Call.{text_call_of, GivesText};
ghost use Rattle.text_owners.specs.Cut.{counts};

use cut::read_cut;
use ending::plan_end;
use limits::SIZE_CELLS;
use lists::{clear, clear_bytes};
use quick::quick_end;
use refusals::{Fault, Refusal};
use text_lines::Place;
use text_plan::Stated;

pub mod cut;
pub mod ending;
pub mod foot;
pub mod line;
pub mod quick;

// Whether what was read counts: the text was cut at the plan's end, or it passed.
fn does_count(exact: bool, read: &Result<Stated, Refusal>) -> bool
    ensures { result ≡ counts exact (reading_of read.now).outcome }
{
    exact || read.is_ok()
}

// Reads a plan text with the owners of its words.
//   takes    a text; 2,049 row starts, columns and values of one length, and 2,048 owners, all lent
//   gives    the modulus, the sizes and the number of entries; the plan and the owners in the lent lists, zero past their ends
//   refuses  9 for a wrong length; 2 for a longer text; then the first line at fault: 3, then 1, 2, or 4, 5, 6, 7; on the line of owners 3, then 16
//   leaves   after a refusal every lent list all zero; the text is only read
pub fn read(
    text: &[u8],
    starts: &mut [u32],
    cols: &mut [u32],
    vals: &mut [u32],
    owners: &mut [u8],
) -> Result<Stated, Refusal>
    ensures { GivesText (text_call_of text.now (length starts.old) (length cols.old) (length vals.old) (length owners.old)) (reading_of result) starts.new cols.new vals.new owners.new }
{
    if owners.len() != SIZE_CELLS {
        clear(starts);
        clear(cols);
        clear(vals);
        clear_bytes(owners);
        return Err(Fault::WrongLength.into());
    }
    let mut end = Place {
        at: quick_end(text),
        line: 1,
    };
    let mut exact = false;
    // A while: one call of `read_cut` in a loop is expanded in its place, and two calls in a row are not, which is slower.
    loop {
        let read = read_cut(text, end, starts, cols, vals, owners);
        if does_count(exact, &read) {
            return read;
        }
        end = plan_end(text);
        exact = true;
    }
}

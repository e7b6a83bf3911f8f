// Reads a plan text that is cut at a place: the plan before it, the owners of its words from it on.
ghost use Rattle.std.specs.Prelude.{length};
ghost use Rattle.text_plan.specs.Call.{reading_of};
ghost use Rattle.text_owners.specs.Call.{text_call_of};
ghost use Rattle.text_owners.specs.Cut.{CutReady, ReadsCut};

use crate::foot::read_foot;
use lists::{clear, clear_bytes};
use refusals::Refusal;
use text_lines::Place;
use text_plan::Stated;

// What is read counts where the text is cut at the plan's end, and wherever it passes: then that is the plan's end.
pub fn read_cut(
    text: &[u8],
    end: Place,
    starts: &mut [u32],
    cols: &mut [u32],
    vals: &mut [u32],
    owners: &mut [u8],
) -> Result<Stated, Refusal>
    requires { CutReady text.now end (length owners.old) }
    ensures { ReadsCut text.now end (text_call_of text.now (length starts.old) (length cols.old) (length vals.old) (length owners.old)) (reading_of result) starts.new cols.new vals.new owners.new }
{
    clear_bytes(owners);
    let stated = text_plan::read(&text[..end.at], starts, cols, vals)?;
    if let Err(refusal) = read_foot(text, end, stated.m, owners) {
        clear(starts);
        clear(cols);
        clear(vals);
        clear_bytes(owners);
        return Err(refusal);
    }
    Ok(stated)
}

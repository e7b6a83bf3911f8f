// The settings that give every slot 0, printed a line each: the basis of the largest plan would fill 16 MB.
ghost use Rattle.sparse.specs.Views.{stored_at};
ghost use Rattle.ask.specs.Settings.{LinesReady};

use crate::output::{end, print};
use ask_settings::{Begun, begin, setting_line};
use limits::{ENTRY_CELLS, PRINT_ROOM, SIZE_CELLS, START_CELLS, WORK_CELLS};
use std::rt::Files;

// Prints the lines of the columns, rising, to the last or to one that cannot be written; a pivot column has none.
fn print_lines(
    rt: &(impl Print + Files),
    errors: &impl Print,
    g: Begun,
    co: &[u32],
    us: &[u32],
    uc: &[u32],
    uv: &[u32],
    marks: &[u64],
    out: &mut [u8],
)
    requires { LinesReady g co.now (stored_at us.now uc.now uv.now) marks.now out.old }
{
    for c in 0..g.columns as usize {
        let size = setting_line(g, co, us, uc, uv, marks, c, out);
        if !print(rt, errors, &out[..size]) {
            return;
        }
    }
    end(rt, errors);
}

// Prints the settings for a plan's text: how many columns are free, then a line for each of them; or the line of a refusal.
pub fn print_settings(rt: &(impl Print + Files), errors: &impl Print, text: &[u8]) {
    let mut co = [0u32; SIZE_CELLS];
    let mut us = [0u32; START_CELLS];
    let mut uc = [0u32; ENTRY_CELLS];
    let mut uv = [0u32; ENTRY_CELLS];
    let mut out = [0u8; PRINT_ROOM];
    let mut work = [0u64; WORK_CELLS];
    let g = begin(
        text, &mut co, &mut us, &mut uc, &mut uv, &mut out, &mut work,
    );
    if !print(rt, errors, &out[..g.size]) {
        return;
    }
    print_lines(rt, errors, g, &co, &us, &uc, &uv, &work, &mut out);
}

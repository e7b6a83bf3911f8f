// What the benchmark times within one process (include/plq_timing.h) beside the calls of the library: the stages alone, and the words from slot values. They
// need no storage of the caller's but the buffer, so that a time is that of the work and of clearing the lists, and of nothing else.
#![tactic(auto)]

ghost use Rattle.std.specs.Prelude.{◌≡◌, length};
ghost use Rattle.byte_buffer.specs.Fills.{Fills};
ghost use Rattle.stages.specs.Results.{stages_of};
ghost use Rattle.bench_calls.specs.Timed.{held_rank, timed_rank, timed_words};

use ask_words::words;
use limits::{ENTRY_CELLS, PRINT_ROOM, SIZE_CELLS, START_CELLS, WORK_CELLS};
use lists::clear_bytes;
use stages::{FactoredPlan, Stopped, factor_text};

// The rank that the stages found, 0 where one of them refused.
fn rank_staged(staged: Result<FactoredPlan, Stopped>) -> u64
    ensures { result ≡ held_rank (stages_of staged) }
{
    match staged {
        Ok(plan) => plan.ranks.rank as u64,
        Err(_) => 0,
    }
}

// Reads a plan's text and factors the plan.
//   takes    a plan text
//   gives    the plan's rank, so that it can be compared with the peers'; 0 where reading or factoring refuses
//   leaves   nothing: the text is only read
#[unsafe(no_mangle)]
pub extern "C" fn plq_time_factoring(text: &[u8]) -> u64
    ensures { result ≡ timed_rank text.now }
{
    let mut starts = [0u32; START_CELLS];
    let mut cols = [0u32; ENTRY_CELLS];
    let mut vals = [0u32; ENTRY_CELLS];
    let mut ro = [0u32; SIZE_CELLS];
    let mut co = [0u32; SIZE_CELLS];
    let mut ls = [0u32; START_CELLS];
    let mut lc = [0u32; ENTRY_CELLS];
    let mut lv = [0u32; ENTRY_CELLS];
    let mut us = [0u32; START_CELLS];
    let mut uc = [0u32; ENTRY_CELLS];
    let mut uv = [0u32; ENTRY_CELLS];
    let mut work = [0u64; WORK_CELLS];
    let staged = factor_text(
        text,
        &mut starts,
        &mut cols,
        &mut vals,
        &mut ro,
        &mut co,
        &mut ls,
        &mut lc,
        &mut lv,
        &mut us,
        &mut uc,
        &mut uv,
        &mut work,
    );
    rank_staged(staged)
}

// Writes the line of the words that give slot values: what the question program prints for a text with the verb `words`, refusals too.
//   takes    a text, slot values of any number, and a buffer of any length and content
//   gives    the length of the line, which stands in the buffer; 0 for a buffer of fewer than 65,536 bytes, or for more than 2,049 values
//   leaves   the buffer zero past the line; the text and the values are only read
#[unsafe(no_mangle)]
pub extern "C" fn plq_time_words(text: &[u8], h: &[u32], out: &mut [u8]) -> u64
    ensures { Fills out.old out.new result (timed_words text.now h.now (length out.old)) }
{
    if out.len() < PRINT_ROOM {
        clear_bytes(out);
        return 0;
    }
    if START_CELLS < h.len() {
        clear_bytes(out);
        return 0;
    }
    let mut work = [0u64; WORK_CELLS];
    words(text, h, out, &mut work) as u64
}

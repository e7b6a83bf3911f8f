// An input that was cut off: its last line has no line feed.
ghost use Rattle.std.specs.Prelude.{◌≡◌, ◌==◌, ◌+◌, ◌≤◌, ◌<◌, ◌^◌, length, count_by};
ghost use Rattle.limits.specs.Limits.{print_room};
ghost use Rattle.byte_buffer.specs.Fills.{Fills};
ghost use Rattle.text_plan.specs.Call.{reading_of};
ghost use Rattle.stages.specs.Stages.{reading};
ghost use Rattle.ask.specs.Cut.{is_cut, last_line_number, cut_line};

use limits::{ENTRY_CELLS, SIZE_CELLS, START_CELLS};
use print_text::report::write_refusal;
use refusals::{Fault, Refusal};
use text_owners::read;
use text_plan::Stated;

const LINE_FEED: u8 = b'\n';

// Whether values are cut off.
#[tactic(auto, unfolding(crate::specs::Cut::is_cut))]
pub fn is_cut(text: &[u8]) -> bool
    ensures { result ≡ is_cut text.now }
{
    text.last().is_some_and(|b| *b != LINE_FEED)
}

fn line_feeds(text: &[u8]) -> usize
    ensures { result ≡ count_by (λ b. b == 10) text.now }
{
    text.iter().filter(|b| **b == LINE_FEED).count()
}

// The number of a text's last line.
pub fn last_line(text: &[u8]) -> u32
    requires { length text.now + 1 < 2 ^ 32 }
    ensures { result ≡ last_line_number text.now }
{
    line_feeds(text) as u32 + 1
}

// What reading a plan's text comes to.
fn read_plan(plan: &[u8]) -> Result<Stated, Refusal>
    ensures { (reading_of result).outcome ≡ (reading plan.now).result.outcome }
{
    let mut starts = [0u32; START_CELLS];
    let mut cols = [0u32; ENTRY_CELLS];
    let mut vals = [0u32; ENTRY_CELLS];
    let mut owners = [0u8; SIZE_CELLS];
    read(plan, &mut starts, &mut cols, &mut vals, &mut owners)
}

// Writes the refusal of a text whose values are cut off in its last line: that of the plan before them, where it is refused.
pub fn write_cut_line(plan: &[u8], line: u32, out: &mut [u8]) -> usize
    requires { print_room ≤ length out.old }
    ensures { Fills out.old out.new result (cut_line plan.now line) }
{
    match read_plan(plan) {
        Err(refusal) => write_refusal(refusal, out),
        Ok(_) => {
            let refusal = Refusal {
                fault: Fault::Malformed,
                detail: line,
            };
            write_refusal(refusal, out)
        }
    }
}

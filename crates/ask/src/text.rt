// A plan's text that a question, or slot values, may follow.
ghost use Rattle.std.specs.Prelude.{◌+◌, ◌≤◌, ◌<◌, ◌^◌, length, drop, ◌≡◌};
ghost use Rattle.ask.specs.Ending.{owners_end, PlanTextEnds};

use text_fields::pieces::piece;
use text_owners::ending::end_in;
use text_owners::line::begins_owners;

const LINE_FEED: u8 = b'\n';

// How many bytes from a place on belong to the plan: those of a line of owners, with its line feed where it has one.
fn owners_end(text: &[u8], at: usize) -> usize
    requires { at ≤ length text.now }
    ensures { result ≡ owners_end (drop at text.now) }
{
    let line = piece(text, at, LINE_FEED);
    if !begins_owners(line) {
        return 0;
    }
    let size = line.len();
    if size == text.len() - at {
        return size;
    }
    size + 1
}

// The place where the plan ends; the text's end where there is no line `0 0 0`.
pub fn plan_end(text: &[u8]) -> usize
    requires { length text.now + 1 < 2 ^ 32 }
    ensures { PlanTextEnds text.now result }
{
    let end = end_in(text);
    let at = end.at;
    at + owners_end(text, at)
}

// Where the plan's own text ends: with its first line `0 0 0`.
ghost use Rattle.std.specs.Prelude.{◌≡◌, ◌+◌, ◌<◌, ◌^◌, length};
ghost use Rattle.text_owners.specs.Ending.{is_last_line, EndsIn, PlanEnds};

use limits::LARGEST_TEXT;
use text_fields::pieces::piece;
use text_lines::Place;

const LINE_FEED: u8 = b'\n';

// Whether a line is `0 0 0`.
#[tactic(auto, unfolding(crate::specs::Ending::is_last_line))]
fn is_last(line: &[u8]) -> bool
    ensures { result ≡ is_last_line line.now }
{
    line.len() == 5
        && line[0] == b'0'
        && line[1] == b' '
        && line[2] == b'0'
        && line[3] == b' '
        && line[4] == b'0'
}

// The place after the first line `0 0 0`, and the number of the line there; the text's end where there is none.
pub fn end_in(text: &[u8]) -> Place
    requires { length text.now + 1 < 2 ^ 32 }
    ensures { EndsIn text.now result }
{
    let mut at = 0;
    let mut line: u32 = 1;
    // A while: only the end of a line says where the next one starts.
    while at < text.len() {
        let l = piece(text, at, LINE_FEED);
        let end = at + l.len();
        if end == text.len() {
            return Place { at: end, line };
        }
        at = end + 1;
        line += 1;
        if is_last(l) {
            return Place { at, line };
        }
    }
    Place { at, line }
}

// The same of any text: one above the limit is not looked through, as reading refuses it whole.
pub fn plan_end(text: &[u8]) -> Place
    ensures { PlanEnds text.now result }
{
    if LARGEST_TEXT < text.len() {
        return Place {
            at: text.len(),
            line: 1,
        };
    }
    end_in(text)
}

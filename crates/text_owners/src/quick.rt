// Where the plan's own text ends if the text is accepted, looked for from the text's end. It is a guess: only what is read with it counts.
ghost use Rattle.std.specs.Prelude.{◌≤◌, length};
ghost use Rattle.text_owners.specs.Cut.{QuickEnd};

use crate::line::begins_owners;
use limits::LARGEST_TEXT;

const LINE_FEED: u8 = b'\n';

// Where the line that ends at `end` starts.
fn line_start(text: &[u8], end: usize) -> usize
    requires { end ≤ length text.now }
    ensures { result ≤ end }
{
    match text[..end].iter().rposition(|b| *b == LINE_FEED) {
        Some(feed) => feed + 1,
        None => 0,
    }
}

// The place of the last line, where it begins with the word `owners`; else the text's end. A text above the limit is not looked at, as reading
// refuses it whole.
pub fn quick_end(text: &[u8]) -> usize
    ensures { QuickEnd text.now result }
{
    let size = text.len();
    if LARGEST_TEXT < size || size == 0 {
        return size;
    }
    let at = line_start(text, size - 1);
    if begins_owners(&text[at..size - 1]) {
        return at;
    }
    size
}

// The line reader: it borrows a text and carries the place of the next line and that line's number.
// The functions over the struct only take it apart or put it together; the work is done by `line_at`, on a slice and a place,
// and by `place_past`, on numbers. Whoever has a plain text calls `line_from` and `next_from`.
#![tactic(auto)]

ghost use Rattle.std.specs.Prelude.{◌≡◌, ◌+◌, ◌<◌, ◌^◌};
ghost use Rattle.text_lines.specs.Line.{line_at, line_end, Ends};

// The byte that ends a line.
const LINE_FEED: u8 = 10;

#[derive(Clone, Copy)]
pub struct LineReader<'a> {
    pub text: &'a [u8],
    pub at: usize,
    pub line: u32,
}

// Where a line starts, and its number: what a reader carries beside its text.
#[derive(Clone, Copy, Debug, PartialEq, Eq)]
pub struct Place {
    pub at: usize,
    pub line: u32,
}

// The line that starts at a place, without its line feed; empty past the text's end.
pub fn line_at(text: &[u8], at: usize) -> &[u8]
    ensures { result.now ≡ line_at text.now at }
{
    if at < text.len() {
        text_fields::pieces::piece(text, at, LINE_FEED)
    } else {
        &text[..0]
    }
}

// The place past a line of `size` bytes and its line feed, and the number of the line there.
pub fn place_past(at: usize, line: u32, size: usize) -> Place
    requires { (at + size + 1 < 2 ^ 64) × (line + 1 < 2 ^ 32) }
    ensures { (result.at ≡ at + size + 1) × (result.line ≡ line + 1) }
{
    Place {
        at: at + size + 1,
        line: line + 1,
    }
}

// The reader before the line of a given place and number.
pub fn reader_at<'a>(text: &'a [u8], at: usize, line: u32) -> LineReader<'a>
    ensures { (result.text ≡ text.entry) × (result.at ≡ at) × (result.line ≡ line) }
{
    LineReader { text, at, line }
}

// The next line, as a part of the text.
pub fn current<'a>(r: LineReader<'a>) -> &'a [u8]
    ensures { result.now ≡ line_at r.entry.text.now r.entry.at }
{
    line_at(r.text, r.at)
}

// The reader past its line. The caller has that line from `current`, and says how long it is: it is not looked through again.
pub fn next<'a>(r: LineReader<'a>, size: usize) -> LineReader<'a>
    requires { Ends r.text.now r.at r.line size }
    ensures { (result.text ≡ r.entry.text) × (result.at ≡ line_end r.entry.text.now r.entry.at + 1) × (result.line ≡ r.entry.line + 1) }
{
    let past = place_past(r.at, r.line, size);
    LineReader {
        text: r.text,
        at: past.at,
        line: past.line,
    }
}

// For callers with a plain text: the line of a given place and number, through the reader.
pub fn line_from(text: &[u8], at: usize, line: u32) -> &[u8]
    ensures { result.now ≡ line_at text.now at }
{
    current(reader_at(text, at, line))
}

// For callers with a plain text: the next line's place and number, through the reader.
pub fn next_from(text: &[u8], at: usize, line: u32, size: usize) -> Place
    requires { Ends text.now at line size }
    ensures { (result.at ≡ line_end text.now at + 1) × (result.line ≡ line + 1) }
{
    let q = next(reader_at(text, at, line), size);
    Place {
        at: q.at,
        line: q.line,
    }
}

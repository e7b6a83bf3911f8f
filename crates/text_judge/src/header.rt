// What the second line, `n m M`, says. It is cut at its spaces first: it is one line, and what reads the lines `i j v` stays theirs alone,
// so that the compiler can expand it in its place.
ghost use Rattle.std.specs.Prelude.{◌≡◌};
ghost use Rattle.text_judge.specs.Line.{is_m, header_of};
ghost use Rattle.text_judge.specs.Spaces.{Cut};

use crate::line::SPACE;
use text_fields::numbers::number_of;
use text_fields::pieces::piece;

// The byte `M`.
const LETTER_M: u8 = b'M';

// Where the two spaces of a line stand.
#[derive(Clone, Copy, Debug, PartialEq, Eq)]
pub struct Spaces {
    pub first: usize,
    pub second: usize,
}

// The sizes of a plan, as its second line says them.
#[derive(Clone, Copy, Debug, PartialEq, Eq)]
pub struct Header {
    pub n: u64,
    pub m: u64,
}

// The places of a line's spaces, if there are two.
fn spaces_of(line: &[u8]) -> Option<Spaces>
    ensures { Cut line.now result }
{
    let a = piece(line, 0, SPACE);
    let first = a.len();
    if first == line.len() {
        return None;
    }
    let b = piece(line, first + 1, SPACE);
    let second = first + 1 + b.len();
    if second == line.len() {
        return None;
    }
    let c = piece(line, second + 1, SPACE);
    if second + 1 + c.len() < line.len() {
        return None;
    }
    Some(Spaces { first, second })
}

// Whether a field is the letter M.
fn is_m(field: &[u8]) -> bool
    ensures { result ≡ is_m field.now }
{
    field.len() == 1 && field[0] == LETTER_M
}

// What the second line says.
pub fn header_of(line: &[u8]) -> Option<Header>
    ensures { result ≡ header_of line.now }
{
    let Spaces { first, second } = spaces_of(line)?;
    let n = number_of(&line[..first])?;
    let m = number_of(&line[first + 1..second])?;
    if is_m(&line[second + 1..]) {
        Some(Header { n, m })
    } else {
        None
    }
}

// The first two lines: the modulus and the sizes.
ghost use Rattle.std.specs.Prelude.{◌≡◌, Bool, List, ℕ, drop};
ghost use Rattle.text_fields.specs.Pieces.{pieces};
ghost use Rattle.residue.specs.Range.{is_modulus};
ghost use Rattle.text_opening.specs.Reading.{Entry, from_second, read_by};
ghost use Rattle.text_opening.specs.Opening.{after_open, Bounded, Second};

use limits::{LARGEST_STATED, LARGEST_TEXT};
use refusals::{Fault, Refusal, demand};
use residue::Modulus;
use text_fields::numbers::number_of;
use text_judge::header::{Header, header_of};
use text_judge::judge::Sizes;
use text_lines::{Place, line_from, next_from};

// What the first two lines lead to where they are not refused: the sizes, and the place and number of the third line.
#[derive(Clone, Copy)]
pub struct Opened {
    pub s: Sizes,
    pub third: Place,
}

// Whether the number of the first line is a modulus.
fn accepts(p: u64) -> bool
    ensures { result ≡ is_modulus p }
{
    if 4294967295 < p {
        return false;
    }
    residue::is_modulus(p as u32)
}

// The second line, whose place and number are given.
fn open_second(text: &[u8], second: Place, modulus: Modulus) -> Result<Opened, Refusal>
    requires { Second text.now second modulus.p }
    ensures { ((rule : List Entry → ℕ → ℕ → Bool) (room : ℕ) → from_second rule modulus.p room (pieces 10 (drop second.at text.now)) ≡ after_open rule room text.now result) × Bounded text.now result }
{
    let malformed = Refusal {
        fault: Fault::Malformed,
        detail: second.line,
    };
    let l = line_from(text, second.at, second.line);
    if second.at + l.len() == text.len() {
        return Err(malformed);
    }
    let third = next_from(text, second.at, second.line, l.len());
    let Some(Header { n, m }) = header_of(l) else {
        return Err(malformed);
    };
    demand(n <= LARGEST_STATED, Fault::OverLimit)?;
    demand(m <= LARGEST_STATED, Fault::OverLimit)?;
    let s = Sizes {
        modulus,
        n: n as u32,
        m: m as u32,
    };
    Ok(Opened { s, third })
}

// The first two lines.
pub fn open(text: &[u8]) -> Result<Opened, Refusal>
    ensures { ((rule : List Entry → ℕ → ℕ → Bool) (room : ℕ) → read_by rule room text.now ≡ after_open rule room text.now result) × Bounded text.now result }
{
    demand(text.len() <= LARGEST_TEXT, Fault::OverLimit)?;
    let first = Place { at: 0, line: 1 };
    let malformed = Refusal {
        fault: Fault::Malformed,
        detail: first.line,
    };
    let l = line_from(text, first.at, first.line);
    if first.at + l.len() == text.len() {
        return Err(malformed);
    }
    let second = next_from(text, first.at, first.line, l.len());
    let Some(p) = number_of(l) else {
        return Err(malformed);
    };
    demand(accepts(p), Fault::BadModulus)?;
    open_second(text, second, Modulus { p: p as u32 })
}

// A question, or slot values, as text: values between single spaces or line feeds.
ghost use Rattle.std.specs.Prelude.{[], ◌∷◌, ◌≡◌, ◌≤◌, length};
ghost use Rattle.text_fields.specs.Number.{number_in};
ghost use Rattle.ask.specs.Values.{value_read, is_separator, values_from, question_in, Added};

use text_fields::numbers::number_of;

// Stands for what is no 32-bit number: it is no residue, so that it is refused at its place.
const NO_RESIDUE: u32 = u32::MAX;

fn small(v: u64) -> u32
    ensures { result ≡ value_read (Some v) }
{
    u32::try_from(v).unwrap_or(NO_RESIDUE)
}

// The value that a field says.
pub fn value(field: &[u8]) -> u32
    ensures { result ≡ value_read (number_in field.now) }
{
    match number_of(field) {
        Some(v) => small(v),
        None => NO_RESIDUE,
    }
}

// Adds a value to the first `count` of a question where there is room; how many are kept now.
pub fn put(y: &mut [u32], count: usize, v: u32) -> usize
    requires { count ≤ length y.old }
    ensures { Added y.old count y.new result (v ∷ []) }
{
    if count < y.len() {
        y[count] = v;
        count + 1
    } else {
        count
    }
}

#[tactic(auto, unfolding(crate::specs::Values::is_separator))]
fn separates(b: u8) -> bool
    ensures { result ≡ is_separator b }
{
    matches!(b, b' ' | b'\n')
}

// The values of a text; how many were kept.
fn values(text: &[u8], y: &mut [u32]) -> usize
    ensures { Added y.old 0 y.new result (values_from [] text.now) }
{
    let mut count = 0;
    for field in text.split(|b| separates(*b)) {
        count = put(y, count, value(field));
    }
    count
}

// The question that follows a plan, its last byte a line feed; how many values were kept.
pub fn from_text(text: &[u8], y: &mut [u32]) -> usize
    ensures { Added y.old 0 y.new result (question_in text.now) }
{
    let size = text.len();
    if size < 2 {
        return 0;
    }
    values(&text[..size - 1], y)
}

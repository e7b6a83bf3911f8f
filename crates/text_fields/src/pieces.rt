// The pieces of a text between separator bytes.
ghost use Rattle.std.specs.Prelude.{◌≡◌, ◌+◌, ◌≤◌, ◌==◌, length, drop};
ghost use Rattle.std.specs.List.{position};
ghost use Rattle.text_fields.specs.Pieces.{pieces, first_piece};
ghost use Rattle.text_fields.specs.Scan.{OfEight};

// How many of the eight bytes from place j on stand before the first separator: eight where it is none of them.
fn before_of_eight(text: &[u8], j: usize, separator: u8) -> usize
    requires { j + 8 ≤ length text.now }
    ensures { OfEight separator text.now j result }
{
    if text[j] == separator {
        return 0;
    }
    if text[j + 1] == separator {
        return 1;
    }
    if text[j + 2] == separator {
        return 2;
    }
    if text[j + 3] == separator {
        return 3;
    }
    if text[j + 4] == separator {
        return 4;
    }
    if text[j + 5] == separator {
        return 5;
    }
    if text[j + 6] == separator {
        return 6;
    }
    if text[j + 7] == separator {
        return 7;
    }
    8
}

// Where the first separator of a text stands.
fn first_separator(text: &[u8], separator: u8) -> Option<usize>
    ensures { result ≡ position (λ b. b == separator) text.now }
{
    text.iter().position(|b| *b == separator)
}

// Where the piece that starts at `at` ends: at the next separator, or at the text's end; byte by byte.
fn end_by_one(text: &[u8], at: usize, separator: u8) -> usize
    requires { at ≤ length text.now }
    ensures { result ≡ at + length (first_piece (pieces separator (drop at text.now))) }
{
    let rest = &text[at..];
    at + first_separator(rest, separator).unwrap_or(rest.len())
}

// The same; byte by byte only where fewer than eight are left.
pub fn piece_end(text: &[u8], at: usize, separator: u8) -> usize
    requires { at ≤ length text.now }
    ensures { result ≡ at + length (first_piece (pieces separator (drop at text.now))) }
{
    let mut e = at;
    // A while: it goes on by eight bytes, and the last few are gone through one by one.
    while 8 <= text.len() - e {
        let run = before_of_eight(text, e, separator);
        e += run;
        if run < 8 {
            return e;
        }
    }
    end_by_one(text, e, separator)
}

// The piece that starts at `at`, as a part of the caller's text, without its separator.
pub fn piece(text: &[u8], at: usize, separator: u8) -> &[u8]
    requires { at ≤ length text.now }
    ensures { result.now ≡ first_piece (pieces separator (drop at text.now)) }
{
    let e = piece_end(text, at, separator);
    &text[at..e]
}

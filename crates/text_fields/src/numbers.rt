// The numbers that fields say: decimal, one to ten digits, no leading zero, a minus only before a number other than 0.
ghost use Rattle.std.specs.Prelude.{◌≡◌, ◌≤◌, length};
ghost use Rattle.text_fields.specs.Number.{digits_from, number_in, signed_of};

// The bytes of the digit `0` and of the minus.
pub const ZERO: u8 = b'0';

const MINUS: u8 = b'-';

// A number with a sign: `Minus(n)` is -n, and n is not 0.
#[derive(Clone, Copy, Debug, PartialEq, Eq)]
pub enum Signed {
    Plus(u64),
    Minus(u64),
}

// The number that at most ten digits say.
fn digits(field: &[u8]) -> Option<u64>
    requires { length field.now ≤ 10 }
    ensures { result ≡ digits_from 0 field.now }
{
    let mut v: u64 = 0;
    for b in field {
        if !b.is_ascii_digit() {
            return None;
        }
        v = v * 10 + u64::from(*b - ZERO);
    }
    Some(v)
}

// The number that a field says.
pub fn number_of(field: &[u8]) -> Option<u64>
    ensures { result ≡ number_in field.now }
{
    let n = field.len();
    if n == 0 || 10 < n {
        return None;
    }
    if field[0] != ZERO {
        return digits(field);
    }
    if n == 1 { Some(0) } else { None }
}

// The number with a sign that a field says.
pub fn signed_of(field: &[u8]) -> Option<Signed>
    ensures { result ≡ signed_of field.now }
{
    if field.is_empty() {
        return None;
    }
    if field[0] != MINUS {
        return Some(Signed::Plus(number_of(field)?));
    }
    let n = number_of(&field[1..])?;
    if n == 0 { None } else { Some(Signed::Minus(n)) }
}

// Numbers in decimal.
ghost use Rattle.std.specs.Prelude.{◌≡◌, ◌+◌, ◌≤◌, length};
ghost use Rattle.text_fields.specs.Decimal.{decimal};
ghost use Rattle.lists.specs.Stored.{Stored};
ghost use Rattle.print_text.specs.Digits.{EndsWith};
ghost use Rattle.print_text.specs.Lines.{labelled};

use byte_buffer::put_bytes;

// The byte of the digit `0`.
const ZERO: u8 = 48;

fn digit(x: u32) -> u8
    requires { x ≤ 9 }
    ensures { result ≡ 48 + x }
{
    ZERO + x as u8
}

// Writes the digits of a number at the end of ten bytes; the place of the first of them. A 32-bit number has at most ten.
fn put_digits(x: u32, bytes: &mut [u8]) -> usize
    requires { length bytes.old ≡ 10 }
    ensures { EndsWith x bytes.new result }
{
    let mut high = x;
    let mut k = 10;
    // A while: how many digits are left shows only as they are taken off.
    while 10 <= high {
        k -= 1;
        bytes[k] = digit(high % 10);
        high /= 10;
    }
    k -= 1;
    bytes[k] = digit(high);
    k
}

// Stores the digits of a number from a place on; the place after them.
pub fn put_number(x: u32, out: &mut [u8], at: usize) -> usize
    requires { at + length (decimal x) ≤ length out.old }
    ensures { Stored out.old out.new at result (decimal x) }
{
    let mut bytes = [0u8; 10];
    let k = put_digits(x, &mut bytes);
    put_bytes(&bytes[k..], out, at)
}

// Stores a label and a number from a place on; the place after them.
pub fn put_labelled(label: &[u8], x: u32, out: &mut [u8], at: usize) -> usize
    requires { at + length (labelled label.now x) ≤ length out.old }
    ensures { Stored out.old out.new at result (labelled label.now x) }
{
    let after_label = put_bytes(label, out, at);
    put_number(x, out, after_label)
}

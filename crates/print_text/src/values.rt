// A line of a label and values.
ghost use Rattle.std.specs.Prelude.{◌+◌, ◌≤◌, length};
ghost use Rattle.lists.specs.Stored.{Stored};
ghost use Rattle.byte_buffer.specs.Fills.{Fills};
ghost use Rattle.print_text.specs.Answer.{values_text, values_line};

use crate::number::put_labelled;
use byte_buffer::put_bytes;
use lists::clear_bytes;

// Each value after a space.
fn put_values(values: &[u32], out: &mut [u8], at: usize) -> usize
    requires { at + length (values_text values.now) ≤ length out.old }
    ensures { Stored out.old out.new at result (values_text values.now) }
{
    let mut next = at;
    for value in values {
        next = put_labelled(b" ", *value, out, next);
    }
    next
}

fn put_values_line(label: &[u8], values: &[u32], out: &mut [u8]) -> usize
    requires { length (values_line label.now values.now) ≤ length out.old }
    ensures { Stored out.old out.new 0 result (values_line label.now values.now) }
{
    let after_label = put_bytes(label, out, 0);
    let after_values = put_values(values, out, after_label);
    put_bytes(b"\n", out, after_values)
}

// Takes a label, the values that go with it, and a buffer. Gives the length of the line, which it leaves in the buffer, zero past its end.
pub fn write_values(label: &[u8], values: &[u32], out: &mut [u8]) -> usize
    requires { length (values_line label.now values.now) ≤ length out.old }
    ensures { Fills out.old out.new result (values_line label.now values.now) }
{
    clear_bytes(out);
    put_values_line(label, values, out)
}

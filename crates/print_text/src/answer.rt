// What the program `ask` prints: an answer in one line.
ghost use Rattle.std.specs.Prelude.{◌≤◌, length};
ghost use Rattle.byte_buffer.specs.Fills.{Fills};
ghost use Rattle.print_text.specs.Answer.{answer_line, slots_line};

use crate::values::write_values;

// Takes a verdict, the values that go with it (x where it is open, z where it is closed) and a buffer; 65,536 bytes are enough.
// Gives the length of the line, which it leaves in the buffer, zero past its end.
pub fn write_answer(is_open: bool, values: &[u32], out: &mut [u8]) -> usize
    requires { length (answer_line is_open values.now) ≤ length out.old }
    ensures { Fills out.old out.new result (answer_line is_open values.now) }
{
    if is_open {
        write_values(b"open", values, out)
    } else {
        write_values(b"closed", values, out)
    }
}

// Takes whether slot values are solved, the values that go with it (the setting s of the words where they are, the combination w of the
// slots where they contradict each other) and a buffer; 65,536 bytes are enough.
// Gives the length of the line, which it leaves in the buffer, zero past its end.
pub fn write_slots(solved: bool, values: &[u32], out: &mut [u8]) -> usize
    requires { length (slots_line solved values.now) ≤ length out.old }
    ensures { Fills out.old out.new result (slots_line solved values.now) }
{
    if solved {
        write_values(b"words", values, out)
    } else {
        write_values(b"contradiction", values, out)
    }
}

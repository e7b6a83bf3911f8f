// What the program `ask` prints of the settings that give every slot 0: how many columns are free, and a line a setting.
ghost use Rattle.std.specs.Prelude.{◌≤◌, length};
ghost use Rattle.byte_buffer.specs.Fills.{Fills};
ghost use Rattle.print_text.specs.Settings.{free_line, setting_line};

use crate::values::write_values;

// `free 1`: takes the number and a buffer. Gives the length of the line, which it leaves in the buffer, zero past its end.
pub fn write_free(count: u32, out: &mut [u8]) -> usize
    requires { length (free_line count) ≤ length out.old }
    ensures { Fills out.old out.new result (free_line count) }
{
    let counts = [count];
    write_values(b"free", &counts, out)
}

// `setting 3 2 1 1 0`: takes the values of a setting and a buffer; 65,536 bytes are enough. Gives the length of the line, which it leaves
// in the buffer, zero past its end.
pub fn write_setting(values: &[u32], out: &mut [u8]) -> usize
    requires { length (setting_line values.now) ≤ length out.old }
    ensures { Fills out.old out.new result (setting_line values.now) }
{
    write_values(b"setting", values, out)
}

// The last line of a report: how many words are open, and how many are closed.
ghost use Rattle.std.specs.Prelude.{◌+◌, ◌≤◌, ◌≡◌, length};
ghost use Rattle.lists.specs.Stored.{Stored};
ghost use Rattle.limits.specs.Limits.{largest_size};
ghost use Rattle.print_text.specs.Lines.{open_count, totals_line};
ghost use Rattle.print_text.specs.Needs.{TotalsFit};

use crate::number::put_labelled;
use byte_buffer::put_bytes;

// How many cells say that their word is open.
fn count_open(cells: &[u32]) -> u32
    requires { length cells.now ≤ largest_size }
    ensures { result ≡ open_count cells.now }
{
    cells.iter().filter(|cell| **cell == 1).count() as u32
}

// `totals open 1 closed 4`; each word is open or closed, so the closed ones are those that are left.
pub fn put_totals_line(cells: &[u32], out: &mut [u8], at: usize) -> usize
    requires { TotalsFit cells.now out.old at }
    ensures { Stored out.old out.new at result (totals_line cells.now) }
{
    let opened = count_open(cells);
    let closed = cells.len() as u32 - opened;
    let after_opened = put_labelled(b"totals open ", opened, out, at);
    let after_closed = put_labelled(b" closed ", closed, out, after_opened);
    put_bytes(b"\n", out, after_closed)
}

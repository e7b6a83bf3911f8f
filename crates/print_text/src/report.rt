// What the report program prints: a report, or the one line of a refusal.
ghost use Rattle.std.specs.Prelude.{◌≤◌, ◌<◌, ◌≡◌, length};
ghost use Rattle.lists.specs.Stored.{Stored};
ghost use Rattle.byte_buffer.specs.Fills.{Fills};
ghost use Rattle.refusals.specs.Faults.{number};
ghost use Rattle.print_text.specs.Report.{report_text, refusal_text};
ghost use Rattle.print_text.specs.Printed.{detail_from_one};
ghost use Rattle.print_text.specs.Needs.{Printable};

use crate::lines::{Summary, put_open_lines, put_rank_line, put_sizes_line};
use crate::number::put_labelled;
use crate::totals::put_totals_line;
use byte_buffer::put_bytes;
use lists::clear_bytes;
use refusals::{Fault, Refusal};

fn put_report(s: Summary, owners: &[u8], cells: &[u32], out: &mut [u8]) -> usize
    requires { Printable s owners.now cells.now out.old }
    ensures { Stored out.old out.new 0 result (report_text s owners.now cells.now) }
{
    let after_sizes = put_sizes_line(s, out, 0);
    let after_rank = put_rank_line(s, out, after_sizes);
    let after_open = put_open_lines(owners, cells, out, after_rank);
    put_totals_line(cells, out, after_open)
}

fn put_refusal(number: u32, detail: u32, out: &mut [u8]) -> usize
    requires { length (refusal_text number detail) ≤ length out.old }
    ensures { Stored out.old out.new 0 result (refusal_text number detail) }
{
    let after_number = put_labelled(b"refused ", number, out, 0);
    let after_detail = put_labelled(b" at ", detail, out, after_number);
    put_bytes(b"\n", out, after_detail)
}

// Takes the numbers of a report, for each word its owner and a cell (1 open, 0 closed), and a buffer; 65,536 bytes are enough.
// Gives the length of the report. Leaves the report in the buffer, zero past its end.
pub fn write_report(s: Summary, owners: &[u8], cells: &[u32], out: &mut [u8]) -> usize
    requires { Printable s owners.now cells.now out.old }
    ensures { Fills out.old out.new result (report_text s owners.now cells.now) }
{
    clear_bytes(out);
    put_report(s, owners, cells, out)
}

// Takes a refusal and a buffer. Gives the length of its line, which it leaves in the buffer, zero past its end.
pub fn write_refusal(refusal: Refusal, out: &mut [u8]) -> usize
    requires { length (refusal_text (number refusal.fault) refusal.detail) ≤ length out.old }
    ensures { Fills out.old out.new result (refusal_text (number refusal.fault) refusal.detail) }
{
    clear_bytes(out);
    put_refusal(u32::from(refusal.fault), refusal.detail, out)
}

// A refusal as it is printed: where its fault is `counted`, its detail is a row or an index, which counts from 1 in print.
pub fn from_one(counted: Fault, refusal: Refusal) -> Refusal
    requires { refusal.detail < 4294967295 }
    ensures { result ≡ record refusal { detail = detail_from_one (number counted) (number refusal.fault) refusal.detail } }
{
    if refusal.fault == counted {
        Refusal {
            detail: refusal.detail + 1,
            ..refusal
        }
    } else {
        refusal
    }
}

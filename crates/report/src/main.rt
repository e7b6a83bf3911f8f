// The report program: the report of the plan text on standard input, on standard output. Where the input cannot be read, or the report not
// be written, standard error says so; of an input that cannot be read there is no report.
#![tactic(auto)]

ghost use Rattle.report_lib.specs.Reporting.{ReportLists};

use limits::{PRINT_ROOM, WORK_CELLS};
use report_lib::report;
use standard_io::{Input, read_input, write_last};
use std::io::Read;
use std::rt::Files;

fn run(
    rt: &(impl Print + Files),
    input: &mut impl Read,
    errors: &impl Print,
    text: &mut [u8],
    out: &mut [u8],
    work: &mut [u64],
)
    requires { ReportLists out.old work.old }
{
    let Input::Read(length) = read_input(input, errors, text, b"report: standard input") else {
        return;
    };
    let size = report(&text[..length], out, work);
    write_last(rt, errors, &out[..size], b"report: standard output");
}

// The text has room for one byte more than may be taken, so that a longer text is refused and not cut.
fn main(rt: HostRuntime) {
    let mut text = [0u8; 65537];
    let mut out = [0u8; PRINT_ROOM];
    let mut work = [0u64; WORK_CELLS];
    run(
        &rt,
        &mut rt.stdin(),
        &rt.stderr(),
        &mut text,
        &mut out,
        &mut work,
    );
}

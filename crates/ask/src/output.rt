// What the program prints.
use standard_io::{end_output, write_last, write_output};
use std::rt::Files;

// Writes a line to standard output; whether it is written. Where it is not, standard error says so.
pub fn print(rt: &impl Print, errors: &impl Print, line: &[u8]) -> bool {
    write_output(rt, errors, line, b"ask: standard output")
}

// Writes the only line.
pub fn print_only(rt: &(impl Print + Files), errors: &impl Print, line: &[u8]) {
    write_last(rt, errors, line, b"ask: standard output");
}

// Nothing more is printed.
pub fn end(rt: &impl Files, errors: &impl Print) {
    end_output(rt, errors, b"ask: standard output");
}

// Standard input and standard output of the programs. A read that fails is no end of the input, and a write that fails is no end of the output:
// each is said on standard error, and answered. The programs' exit status says nothing of it.
#![tactic(auto)]

ghost use Rattle.std.specs.Io.{ReadsAtMost};
ghost use Rattle.standard_io.specs.Within.{Within};

use std::fs::{OpenFile, OpenOptions};
use std::io::{BufRead, Error, ErrorKind, Read};
use std::rt::Files;
use std::{fs, io};

mod words;

use words::fail;

// Where the system has standard output as a file.
const OUTPUT: &str = "/dev/stdout";

// How many bytes were read, or that a read failed.
#[derive(Clone, Copy)]
pub enum Input {
    Read(usize),
    Failed,
}

// One read, 0 bytes at the end of the input. A read that a signal interrupts is tried again; the turns are counted so that the loop ends.
fn read_some(input: &mut impl Read, part: &mut [u8]) -> io::Result<usize>
    ensures { ReadsAtMost result part.new }
{
    for _ in 0..u64::MAX {
        match input.read(part) {
            Err(e) if e.kind() == ErrorKind::Interrupted => continue,
            done => return done,
        }
    }
    Err(Error::from(ErrorKind::Interrupted))
}

// Reads until the text is full or the input ends.
fn read_on(input: &mut impl Read, text: &mut [u8]) -> io::Result<usize>
    ensures { ReadsAtMost result text.new }
{
    let mut size = 0;
    // A while: a turn goes on by as many bytes as were read.
    while size < text.len() {
        let more = read_some(input, &mut text[size..])?;
        if more == 0 {
            return Ok(size);
        }
        size += more;
    }
    Ok(size)
}

// Reads an input until the text is full or the input ends. Where a read fails, `errors` says so after the words given.
pub fn read_input(
    input: &mut impl Read,
    errors: &impl Print,
    text: &mut [u8],
    words: &[u8],
) -> Input
    ensures { Within result text.new }
{
    match read_on(input, text) {
        Ok(size) => Input::Read(size),
        Err(e) => {
            fail(errors, words, e);
            Input::Failed
        }
    }
}

// Writes a text to standard output; whether all of it is written. Where a write fails, `errors` says so after the words given.
pub fn write_output(rt: &impl Print, errors: &impl Print, text: &[u8], words: &[u8]) -> bool {
    match rt.write_all(text) {
        Ok(()) => true,
        Err(e) => {
            fail(errors, words, e);
            false
        }
    }
}

// Sees standard output through to where it is kept, if it is a file that can be opened again: some file systems say only then that there was no room.
fn keep_output(rt: &impl Files) -> io::Result<()> {
    let Ok(about) = fs::metadata(rt, OUTPUT) else {
        return Ok(());
    };
    if !about.is_file() {
        return Ok(());
    }
    let Ok(file) = OpenOptions::new().write(true).open(rt, OUTPUT) else {
        return Ok(());
    };
    match file.sync_all() {
        Err(e) if e.kind() == ErrorKind::InvalidInput => Ok(()),
        kept => kept,
    }
}

// Ends standard output. Some file systems say only then that there was no room.
pub fn end_output(rt: &impl Files, errors: &impl Print, words: &[u8]) {
    if let Err(e) = keep_output(rt) {
        fail(errors, words, e);
    }
}

// Writes the last text, or the only one, and ends standard output.
pub fn write_last(rt: &(impl Print + Files), errors: &impl Print, text: &[u8], words: &[u8]) {
    if write_output(rt, errors, text, words) {
        end_output(rt, errors, words);
    }
}

// The question program: the answer to a question about a plan, put by hand.
// The plan's text is read from standard input. The question is given as arguments, one value each; without arguments it follows
// the plan on standard input. One line is printed: `open` and x, `closed` and z, or `refused`, a number and its detail.
// With the verb `words` before them the values are those of the slots. The line is then `words` and the setting of the words that gives
// them, or `contradiction` and the combination of the slots that shows that none does.
// With the verb `settings` alone the settings of the free words are printed: `free` and how many there are, then a line for each of them,
// `setting` and its values.
#![tactic(auto)]

ghost use Rattle.std.specs.Prelude.{◌+◌, ◌≤◌, ◌<◌, ◌^◌, length};
ghost use Rattle.limits.specs.Limits.{starts_length};
ghost use Rattle.byte_buffer.specs.Fills.{Fills};
ghost use Rattle.ask_lib.specs.Asking.{AskLists};
ghost use Rattle.ask.specs.Verb.{line_for, text_line, TextLists};

use limits::{PRINT_ROOM, START_CELLS, WORK_CELLS};
use output::print_only;
use standard_io::{Input, read_input};
use std::rt::{Env, Files};

mod arguments;
mod cut;
mod output;
mod question;
mod settings;
mod text;

fn write_line(words: bool, plan: &[u8], y: &[u32], out: &mut [u8], work: &mut [u64]) -> usize
    requires { AskLists y.now out.old work.old }
    ensures { Fills out.old out.new result (line_for words plan.now y.now) }
{
    if words {
        ask_words::words(plan, y, out, work)
    } else {
        ask_lib::ask(plan, y, out, work)
    }
}

// Writes the line for a text in which the values follow the plan.
fn write_text_line(words: bool, text: &[u8], out: &mut [u8], work: &mut [u64]) -> usize
    requires { TextLists text.now out.old work.old }
    ensures { Fills out.old out.new result (text_line words text.now) }
{
    let end = text::plan_end(text);
    if cut::is_cut(&text[end..]) {
        return cut::write_cut_line(&text[..end], cut::last_line(text), out);
    }
    let mut y = [0u32; START_CELLS];
    let count = question::from_text(&text[end..], &mut y);
    write_line(words, &text[..end], &y[..count], out, work)
}

fn print_answer(rt: &(impl Print + Files), errors: &impl Print, words: bool, plan: &[u8], y: &[u32])
    requires { length y.now ≤ starts_length }
{
    let mut out = [0u8; PRINT_ROOM];
    let mut work = [0u64; WORK_CELLS];
    let size = write_line(words, plan, y, &mut out, &mut work);
    print_only(rt, errors, &out[..size]);
}

// All of the text is the plan; the values are the arguments from the first-th on.
fn ask_by_arguments(
    rt: &(impl Print + Files + Env),
    errors: &impl Print,
    words: bool,
    first: usize,
    text: &[u8],
) {
    let mut y = [0u32; START_CELLS];
    let count = arguments::question(rt, first, &mut y);
    print_answer(rt, errors, words, text, &y[..count]);
}

fn ask_by_text(rt: &(impl Print + Files), errors: &impl Print, words: bool, text: &[u8])
    requires { length text.now + 1 < 2 ^ 32 }
{
    let mut out = [0u8; PRINT_ROOM];
    let mut work = [0u64; WORK_CELLS];
    let size = write_text_line(words, text, &mut out, &mut work);
    print_only(rt, errors, &out[..size]);
}

// A question, or with the verb `words` slot values, as arguments or after the plan.
fn ask_values(rt: &(impl Print + Files + Env), errors: &impl Print, text: &[u8])
    requires { length text.now + 1 < 2 ^ 32 }
{
    let words = arguments::says_words(rt);
    let first = if words { 2 } else { 1 };
    if arguments::has(rt, first) {
        ask_by_arguments(rt, errors, words, first, text);
    } else {
        ask_by_text(rt, errors, words, text);
    }
}

// What the input asks for.
fn run(rt: &(impl Print + Files + Env), errors: &impl Print, text: &[u8])
    requires { length text.now + 1 < 2 ^ 32 }
{
    if arguments::says_settings(rt) {
        settings::print_settings(rt, errors, text);
    } else {
        ask_values(rt, errors, text);
    }
}

// A plan has at most 65,536 bytes, and 2,049 values have at most 22,539 with what separates them.
fn main(rt: HostRuntime) {
    let mut text = [0u8; 98304];
    let Input::Read(size) = read_input(
        &mut rt.stdin(),
        &rt.stderr(),
        &mut text,
        b"ask: standard input",
    ) else {
        return;
    };
    run(&rt, &rt.stderr(), &text[..size]);
}

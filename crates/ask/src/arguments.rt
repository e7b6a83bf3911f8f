// What the program was called with: a verb or none, and values.
ghost use Rattle.std.specs.Prelude.{◌↔◌, ◌≡◌, true, ◌≤◌, length};
ghost use Rattle.print_text.specs.Labels.{setting_word};
ghost use Rattle.ask.specs.Verb.{settings_verb};

use crate::question::{put, value};
use std::env::FillError;
use std::rt::Env;

// Whether there is an i-th argument; the 0-th is the program's name.
pub fn has(rt: &impl Env, i: usize) -> bool {
    !matches!(rt.arg(i, &mut []), Err(FillError::NotPresent))
}

// Puts an argument at the start of a buffer; how many bytes it has, 0 where there is none or it does not fit.
fn fill(rt: &impl Env, i: usize, field: &mut [u8]) -> usize
    ensures { result ≤ length field.new }
{
    rt.arg(i, field).unwrap_or(0)
}

// Whether an argument is the verb `words`.
fn is_words(argument: &[u8]) -> bool
    ensures { (result ≡ true) ↔ (argument.now ≡ setting_word) }
{
    argument == b"words".as_slice()
}

// Whether the first argument is the verb `words`. One that does not fit the buffer is longer.
pub fn says_words(rt: &impl Env) -> bool {
    let mut field = [0u8; 16];
    let size = fill(rt, 1, &mut field);
    is_words(&field[..size])
}

// Whether an argument is the verb `settings`.
fn is_settings(argument: &[u8]) -> bool
    ensures { (result ≡ true) ↔ (argument.now ≡ settings_verb) }
{
    argument == b"settings".as_slice()
}

// Whether the only argument is the verb `settings`, which takes no values.
pub fn says_settings(rt: &impl Env) -> bool {
    if has(rt, 2) {
        return false;
    }
    let mut field = [0u8; 16];
    let size = fill(rt, 1, &mut field);
    is_settings(&field[..size])
}

// The value of an argument. One that does not fit the buffer has more digits than any number that is accepted.
fn argument(rt: &impl Env, i: usize) -> u32 {
    let mut field = [0u8; 16];
    let size = fill(rt, i, &mut field);
    value(&field[..size])
}

// The values of the arguments from the first-th on; how many were kept.
pub fn question(rt: &impl Env, first: usize, y: &mut [u32]) -> usize
    ensures { result ≤ length y.new }
{
    let mut count = 0;
    for i in first..usize::MAX {
        if !has(rt, i) {
            break;
        }
        count = put(y, count, argument(rt, i));
    }
    count
}

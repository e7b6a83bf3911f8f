// What failed, in the system's words.
use std::io::{Cursor, Error, Write};
use std::str::from_utf8;

// The longest words that are kept.
const ROOM: usize = 256;

// What stands between the words of an error and its number.
const NUMBER: &str = " (os error ";

// Words without the number; none where they are no text.
fn unnumbered(words: &[u8]) -> &str {
    let Ok(all) = from_utf8(words) else {
        return "";
    };
    match all.split_once(NUMBER) {
        Some((words, _)) => words,
        None => all,
    }
}

// Writes a line: what failed, as the caller names it, a colon and the system's words. Where that fails there is no one left to say it to.
pub fn fail(errors: &impl Print, what: &[u8], e: Error) {
    let mut words = Cursor::new([0; ROOM]);
    let _ = write!(words, "{e}"); // as many words as there is room for
    let size = words.position().min(ROOM as u64) as usize;
    let _ = errors.write_all(what);
    let _ = errors.println(format_args!(": {}", unnumbered(&words.get_ref()[..size])));
}

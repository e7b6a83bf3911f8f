// The settings that give every slot 0, one line for each free column, from a plan's text (document 02, slip 7). The basis may have
// 4,194,304 cells, so that it is never held: `begin` reads, factors and writes the first line, then `setting_line` writes the line of one column.
#![tactic(auto)]

pub use first::begin;
pub use line::setting_line;

mod first;
mod line;

// What `begin` returns: the length of the first line, and what the lines of the columns are made from, the modulus, the number of columns, which
// is 0 after a refusal, the rank, and the entry count of U.
#[derive(Clone, Copy, Debug, PartialEq, Eq)]
pub struct Begun {
    pub size: usize,
    pub p: u32,
    pub columns: u32,
    pub rank: u32,
    pub upper: u32,
}

// The lines of a report, each stored from a place on; the place after it is returned.
ghost use Rattle.std.specs.Prelude.{◌+◌, ◌≤◌, length};
ghost use Rattle.lists.specs.Stored.{Stored};
ghost use Rattle.print_text.specs.Lines.{sizes_line, rank_line, open_line, word_line, open_lines};
ghost use Rattle.print_text.specs.Needs.{LineFits, LinesFit};

use crate::number::put_labelled;
use byte_buffer::put_bytes;

// The numbers of a report: the sizes of a plan, its rank with the structural pivots, and the entry counts of L and U.
#[derive(Clone, Copy)]
pub struct Summary {
    pub modulus: u32,
    pub slots: u32,
    pub words: u32,
    pub entries: u32,
    pub rank: u32,
    pub structural: u32,
    pub lower: u32,
    pub upper: u32,
}

// `modulus 7 slots 5 words 5 entries 11`
pub fn put_sizes_line(s: Summary, out: &mut [u8], at: usize) -> usize
    requires { at + length (sizes_line s) ≤ length out.old }
    ensures { Stored out.old out.new at result (sizes_line s) }
{
    let after_modulus = put_labelled(b"modulus ", s.modulus, out, at);
    let after_slots = put_labelled(b" slots ", s.slots, out, after_modulus);
    let after_words = put_labelled(b" words ", s.words, out, after_slots);
    let after_entries = put_labelled(b" entries ", s.entries, out, after_words);
    put_bytes(b"\n", out, after_entries)
}

// `rank 4 structural 4 L 6 U 7`
pub fn put_rank_line(s: Summary, out: &mut [u8], at: usize) -> usize
    requires { at + length (rank_line s) ≤ length out.old }
    ensures { Stored out.old out.new at result (rank_line s) }
{
    let after_rank = put_labelled(b"rank ", s.rank, out, at);
    let after_structural = put_labelled(b" structural ", s.structural, out, after_rank);
    let after_lower = put_labelled(b" L ", s.lower, out, after_structural);
    let after_upper = put_labelled(b" U ", s.upper, out, after_lower);
    put_bytes(b"\n", out, after_upper)
}

// `open 5 owner 1` for column 4
fn put_open_line(column: u32, owner: u8, out: &mut [u8], at: usize) -> usize
    requires { LineFits column (open_line column owner) out.old at }
    ensures { Stored out.old out.new at result (open_line column owner) }
{
    let after_word = put_labelled(b"open ", column + 1, out, at);
    let after_owner = put_labelled(b" owner ", owner as u32, out, after_word);
    put_bytes(b"\n", out, after_owner)
}

// The line of a column where its cell says that it is open; nothing where it is closed.
fn put_word_line(column: u32, owner: u8, cell: u32, out: &mut [u8], at: usize) -> usize
    requires { LineFits column (word_line column owner cell) out.old at }
    ensures { Stored out.old out.new at result (word_line column owner cell) }
{
    if cell == 1 {
        put_open_line(column, owner, out, at)
    } else {
        at
    }
}

// A line for each open word, rising, with its owner.
pub fn put_open_lines(owners: &[u8], cells: &[u32], out: &mut [u8], at: usize) -> usize
    requires { LinesFit owners.now cells.now out.old at }
    ensures { Stored out.old out.new at result (open_lines 0 owners.now cells.now) }
{
    let mut next = at;
    for (j, cell) in cells.iter().enumerate() {
        next = put_word_line(j as u32, owners[j], *cell, out, next);
    }
    next
}

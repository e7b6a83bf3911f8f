// The lines collected by number, whatever their order: row, column and value of each, zeros too.
ghost use Rattle.std.specs.Prelude.{◌≡◌, cond, [], eqb, length, drop, set};
ghost use Rattle.text_fields.specs.Pieces.{pieces};
ghost use Rattle.refusals.specs.Outcome.{Passed, Refused, outcome_of};
ghost use Rattle.text_plan.specs.Collect.{collect};
ghost use Rattle.text_plan.specs.Needs.{Keepable, Collectable, Collects, gathered_of};

use refusals::{Fault, Refusal};
use text_judge::judge::Sizes;
use text_judge::line::line_of;
use text_judge::sight::{Sight, sight_of};
use text_lines::{Place, line_from, next_from};

// How many lines were collected, and what ended it, places that are taken twice left aside: the last line, or a refusal.
#[derive(Clone, Copy, Debug, PartialEq, Eq)]
pub struct Gathered {
    pub count: u32,
    pub ended: Result<(), Refusal>,
}

// Keeps the triple of a number.
fn keep(
    rows: &mut [u32],
    columns: &mut [u32],
    values: &mut [u32],
    number: u32,
    i: u64,
    j: u64,
    v: u32,
)
    requires { Keepable (length rows.old) (length columns.old) (length values.old) number i j }
    ensures { (rows.new ≡ set rows.old number i) × (columns.new ≡ set columns.old number j) × (values.new ≡ set values.old number v) }
{
    let at = lists::index(number);
    rows[at] = i as u32;
    columns[at] = j as u32;
    values[at] = v;
}

// How many entries a value takes: none if it is 0.
fn taken(v: u32) -> usize
    ensures { result ≡ cond (eqb v 0) 0 1 }
{
    if v == 0 { 0 } else { 1 }
}

// What the last line leads to, where `next` follows it in a text of `length` bytes: nothing may follow.
fn after_last(next: Place, length: usize) -> Result<(), Refusal>
    ensures { outcome_of result ≡ cond (eqb next.at length) Passed (Refused 3 next.line) }
{
    if next.at == length {
        return Ok(());
    }
    Err(Refusal {
        fault: Fault::Malformed,
        detail: next.line,
    })
}

// Collects the lines from the one at `from` on, where the lent entry storage has room for `room` values.
// A line that 6 or 7 refuses is collected too, since 5 comes before them.
pub fn collect_lines(
    text: &[u8],
    from: Place,
    s: Sizes,
    room: usize,
    rows: &mut [u32],
    columns: &mut [u32],
    values: &mut [u32],
) -> Gathered
    requires { Collectable text.now from s rows.old columns.old values.old }
    ensures { Collects (collect s room from.line [] (pieces 10 (drop from.at text.now))) (gathered_of result) rows.new columns.new values.new }
{
    let mut here = from;
    let mut count: u32 = 0;
    let mut stored: usize = 0;
    // A while: only the end of a line says where the next one starts.
    while here.at < text.len() {
        let detail = here.line;
        let l = line_from(text, here.at, detail);
        if here.at + l.len() == text.len() {
            let fault = Fault::Malformed;
            let ended = Err(Refusal { fault, detail });
            return Gathered { count, ended };
        }
        let next = next_from(text, here.at, detail, l.len());
        match sight_of(room <= stored, s, line_of(l)) {
            Sight::Stops(fault) => {
                let ended = Err(Refusal { fault, detail });
                return Gathered { count, ended };
            }
            Sight::Finishes => {
                let ended = after_last(next, text.len());
                return Gathered { count, ended };
            }
            Sight::Stands { i, j, v } => {
                keep(rows, columns, values, count, i, j, v);
                stored += taken(v);
            }
            Sight::Fails { fault, i, j } => {
                keep(rows, columns, values, count, i, j, 0);
                let ended = Err(Refusal { fault, detail });
                count += 1;
                return Gathered { count, ended };
            }
        }
        count += 1;
        here = next;
    }
    let fault = Fault::Malformed;
    let ended = Err(Refusal {
        fault,
        detail: here.line,
    });
    Gathered { count, ended }
}

// What follows a plan in its text: nothing, or the line of the owners and nothing after it.
ghost use Rattle.std.specs.Prelude.{drop, replicate, ◌≡◌, ◌≤◌};
ghost use Rattle.lists.specs.Filled.{zeros, filled};
ghost use Rattle.limits.specs.Limits.{largest_size};
ghost use Rattle.text_fields.specs.Pieces.{pieces};
ghost use Rattle.refusals.specs.Outcome.{outcome_of};
ghost use Rattle.text_owners.specs.Owners.{owners_in};
ghost use Rattle.text_owners.specs.Call.{owners_length};
ghost use Rattle.text_owners.specs.Needs.{FootReady, Owns};

use crate::line::read_line;
use refusals::{Fault, Refusal};
use text_lines::{Place, line_from, next_from};

// Without a line of owners each of the m words belongs to customer 1.
fn own_by_first(m: u32, owners: &mut [u8])
    requires { (m ≤ largest_size) × (owners.old ≡ zeros owners_length) }
    ensures { owners.new ≡ filled owners_length (replicate m 1) }
{
    owners[..lists::index(m)].fill(1);
}

// Reads what follows a plan of m words, from the line at `from` on, into bytes that are all zero.
pub fn read_foot(text: &[u8], from: Place, m: u32, owners: &mut [u8]) -> Result<(), Refusal>
    requires { FootReady text.now from m owners.old }
    ensures { Owns (owners_in m from.line (pieces 10 (drop from.at text.now))) (outcome_of result) owners.new }
{
    if from.at == text.len() {
        own_by_first(m, owners);
        return Ok(());
    }
    let l = line_from(text, from.at, from.line);
    if from.at + l.len() == text.len() {
        return Err(Refusal {
            fault: Fault::Malformed,
            detail: from.line,
        });
    }
    let next = next_from(text, from.at, from.line, l.len());
    if let Err(fault) = read_line(l, m, owners) {
        return Err(Refusal {
            fault,
            detail: from.line,
        });
    }
    if next.at != text.len() {
        return Err(Refusal {
            fault: Fault::Malformed,
            detail: next.line,
        });
    }
    Ok(())
}

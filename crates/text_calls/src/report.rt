// What was printed, put in a buffer of any length.
ghost use Rattle.std.specs.Prelude.{length};
ghost use Rattle.certificate.specs.Writing.{room_for};
ghost use Rattle.refusals.specs.Outcome.{outcome_of};
ghost use Rattle.refusals.specs.Refusals.{◌▷◌};
ghost use Rattle.text_calls.specs.Calls.{ReportsText};
ghost use Rattle.text_calls.specs.Held.{Puts};

use crate::pack;
use byte_buffer::put_bytes;
use limits::{PRINT_ROOM, WORK_CELLS};
use lists::clear_bytes;
use refusals::{Fault, Refusal, demand};
use report_lib::{Reported, report_all};

// Puts bytes in a buffer, zero past their end, where nothing was refused and the buffer holds them.
// It is cleared first, so that every refusal leaves it all zero.
pub fn deliver(outcome: Result<(), Refusal>, bytes: &[u8], buffer: &mut [u8]) -> Result<(), Refusal>
    ensures { Puts (outcome_of outcome ▷ room_for (length buffer.old) bytes.now) bytes.now (outcome_of result) buffer.old buffer.new }
{
    clear_bytes(buffer);
    outcome?;
    demand(bytes.len() <= buffer.len(), Fault::WrongLength)?;
    put_bytes(bytes, buffer, 0);
    Ok(())
}

// The report of a text in a buffer of any length, as one number.
pub fn report_text(text: &[u8], buffer: &mut [u8]) -> u64
    ensures { ReportsText text.now result buffer.old buffer.new }
{
    let mut printed = [0u8; PRINT_ROOM];
    let mut work = [0u64; WORK_CELLS];
    let Reported { outcome, size } = report_all(text, &mut printed, &mut work);
    pack(deliver(outcome, &printed[..size], buffer))
}

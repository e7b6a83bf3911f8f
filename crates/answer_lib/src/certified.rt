// Answering from a certificate.
ghost use Rattle.std.specs.Prelude.{ℕ};
ghost use Rattle.call_answer.specs.Calls.{AnswersIn, given_answer};
ghost use Rattle.stages.specs.Lists.{Held};
ghost use Rattle.answer_lib.specs.Answering.{answer_text_of};
ghost use Rattle.answer_lib.specs.Held.{certified_held_of};
ghost use Rattle.answer_lib.specs.Needs.{CertifiedReady};
ghost use Rattle.sparse.specs.Views.{stored_at, stored_before};
ghost use Rattle.text_plan.specs.Call.{reading_of};

use call_answer::from_certificate::answer_from_certificate;
use limits::{ENTRY_CELLS, SIZE_CELLS, START_CELLS};
use lists::{clear, clear_row};
use refusals::Refusal;
use row_space::Verdict;
use text_plan::Stated;

// What comes of a reading: its refusal, or the answer about the plan that it left in lists.
fn answer_read(
    read: Result<Stated, Refusal>,
    starts: &[u32],
    cols: &[u32],
    vals: &[u32],
    certificate: &[u8],
    y: &[u32],
    x: &mut [u32],
    z: &mut [u32],
    work: &mut [u64],
) -> Result<Verdict, Refusal>
    requires { Held (reading_of read) (stored_at starts.now cols.now vals.now) }
    ensures { AnswersIn (certified_held_of (reading_of read) (stored_before starts.now cols.now vals.now) certificate.now y.now) (given_answer result) x z work }
{
    let stated = match read {
        Ok(stated) => stated,
        Err(refusal) => {
            clear(x);
            clear(z);
            clear_row(work);
            return Err(refusal);
        }
    };
    let rows = stated.n as usize + 1;
    let count = stated.count as usize;
    answer_from_certificate(
        stated.p,
        stated.n,
        stated.m,
        &starts[..rows],
        &cols[..count],
        &vals[..count],
        certificate,
        y,
        x,
        z,
        work,
    )
}

// Reads a plan's text, and answers a question from a certificate of the plan.
pub fn answer_certified(
    text: &[u8],
    certificate: &[u8],
    y: &[u32],
    x: &mut [u32],
    z: &mut [u32],
    work: &mut [u64],
) -> Result<Verdict, Refusal>
    requires { CertifiedReady certificate.now work.old }
    ensures { AnswersIn (λ (a b w : ℕ). answer_text_of text.now certificate.now y.now a b) (given_answer result) x z work }
{
    let mut starts = [0u32; START_CELLS];
    let mut cols = [0u32; ENTRY_CELLS];
    let mut vals = [0u32; ENTRY_CELLS];
    let mut owners = [0u8; SIZE_CELLS];
    let read = text_owners::read(text, &mut starts, &mut cols, &mut vals, &mut owners);
    answer_read(read, &starts, &cols, &vals, certificate, y, x, z, work)
}

// An answer as planning programs in C see it.
ghost use Rattle.std.specs.Prelude.{◌+◌, ◌*◌, ◌≡◌};
ghost use Rattle.call_answer.specs.Calls.{answer_number, answer_detail, given_answer};
ghost use Rattle.text_calls.specs.Calls.{verdict_byte, AnswersText};

use crate::pack;
use answer_lib::answer_text;
use limits::WORK_CELLS;
use refusals::Refusal;
use row_space::Verdict;

// 1 where an answer is open, else 0.
pub fn verdict_byte(answer: Result<Verdict, Refusal>) -> u8
    ensures { result ≡ verdict_byte (given_answer answer) }
{
    match answer {
        Ok(Verdict::Open) => 1,
        Ok(Verdict::Closed) => 0,
        Err(_) => 0,
    }
}

// An answer as one number: that of its refusal, else 0.
pub fn pack_answer(answer: Result<Verdict, Refusal>) -> u64
    ensures { result ≡ answer_number (given_answer answer) + 256 * answer_detail (given_answer answer) }
{
    match answer {
        Ok(_) => 0,
        Err(refusal) => pack(Err(refusal)),
    }
}

// The answer to a question about a text, as one number and one byte.
pub fn answer_from_text(
    text: &[u8],
    certificate: &[u8],
    y: &[u32],
    x: &mut [u32],
    z: &mut [u32],
    verdict: &mut u8,
) -> u64
    ensures { AnswersText text.now certificate.now y.now result x.old x.new z.old z.new verdict.new }
{
    let mut work = [0u64; WORK_CELLS];
    let answer = answer_text(text, certificate, y, x, z, &mut work);
    *verdict = verdict_byte(answer);
    pack_answer(answer)
}

// The library. For programs in Rattle: reading a plan's text, and the calls on stored plans with the owners of their words. Beside these, the calls that take
// a plan as its text and need no storage of the caller's to work in: `plq_c` exports them to planning programs in C (include/plq.h).
#![tactic(auto)]

ghost use Rattle.std.specs.Prelude.{◌≡◌};
ghost use Rattle.text_calls.specs.Calls.{check_text_of, packed, Makes, ReportsText, AnswersText};

pub use call_kernel::from_certificate::kernel_basis_from_certificate;
pub use call_owned::answer::{answer_from_certificate, answer_from_factors};
pub use call_owned::check::{check_certificate, check_factors};
pub use call_owned::factor::factor;
pub use call_owned::open::{open_columns_from_certificate, open_columns_from_factors};
pub use call_owned::write::write_certificate;
pub use call_slots::from_certificate::solve_slots_from_certificate;
pub use call_slots::from_factors::solve_slots_from_factors;
use limits::{ENTRY_CELLS, SIZE_CELLS, START_CELLS, WORK_CELLS};
use stages::factor_text;
use text_calls::answer::answer_from_text;
use text_calls::check::check_text;
use text_calls::make::make_staged;
use text_calls::pack;
use text_calls::report::report_text;
pub use text_owners::read as read_plan;

// Makes the certificate of a plan.
//   takes    a plan text, and a buffer of any length and content
//   gives    0, and the certificate in the buffer, zero past its end
//   refuses  reading: 2, then the first line at fault; then factoring: 7 at a row; then writing: 9 for a buffer that is too short
//   leaves   after a refusal the buffer all zero; the text is only read
pub fn plq_make_certificate(text: &[u8], buffer: &mut [u8]) -> u64
    ensures { Makes text.now result buffer.old buffer.new }
{
    let mut starts = [0u32; START_CELLS];
    let mut cols = [0u32; ENTRY_CELLS];
    let mut vals = [0u32; ENTRY_CELLS];
    let mut ro = [0u32; SIZE_CELLS];
    let mut co = [0u32; SIZE_CELLS];
    let mut ls = [0u32; START_CELLS];
    let mut lc = [0u32; ENTRY_CELLS];
    let mut lv = [0u32; ENTRY_CELLS];
    let mut us = [0u32; START_CELLS];
    let mut uc = [0u32; ENTRY_CELLS];
    let mut uv = [0u32; ENTRY_CELLS];
    let mut work = [0u64; WORK_CELLS];
    let staged = factor_text(
        text,
        &mut starts,
        &mut cols,
        &mut vals,
        &mut ro,
        &mut co,
        &mut ls,
        &mut lc,
        &mut lv,
        &mut us,
        &mut uc,
        &mut uv,
        &mut work,
    );
    pack(make_staged(
        staged, &starts, &cols, &vals, &ro, &co, &ls, &lc, &lv, &us, &uc, &uv, buffer, &mut work,
    ))
}

// Checks a certificate, anybody's.
//   takes    a plan text, and the bytes of a certificate
//   gives    0 exactly if the set that it holds has the published shape and its product is the plan
//   refuses  reading: 2, then the first line at fault; then checking: 10, 11, 12, 13, 14 at the first position
//   leaves   nothing: both are only read
pub fn plq_check_certificate(text: &[u8], certificate: &[u8]) -> u64
    ensures { result ≡ packed (check_text_of text.now certificate.now) }
{
    let mut starts = [0u32; START_CELLS];
    let mut cols = [0u32; ENTRY_CELLS];
    let mut vals = [0u32; ENTRY_CELLS];
    let mut work = [0u64; WORK_CELLS];
    pack(check_text(
        text,
        certificate,
        &mut starts,
        &mut cols,
        &mut vals,
        &mut work,
    ))
}

// Reports on a plan: its sizes, its rank, and its open words with their owners.
//   takes    a plan text, and a buffer of any length and content; 65,536 bytes hold any report
//   gives    0, and the report's lines in the buffer, zero past their end
//   refuses  reading: 2, then the first line at fault; then factoring: 7 at a row; then a buffer that does not hold the report: 9
//   leaves   after a refusal the buffer all zero; the text is only read
pub fn plq_report(text: &[u8], buffer: &mut [u8]) -> u64
    ensures { ReportsText text.now result buffer.old buffer.new }
{
    report_text(text, buffer)
}

// Answers a question about a plan: from a certificate, anybody's, which is checked first; or, where it has no bytes, from the engine's own factors.
//   takes    a plan text; the bytes of a certificate, or none; a question y of m values; n cells for x, m cells for z, and one byte for the verdict
//   gives    0, and the verdict: 1, open, with the x where x A = y; or 0, closed, with a z where A z = 0 and y z is not 0
//   refuses  reading: 2, then the first line at fault; without a certificate then factoring: 7 at a row; then 9 for the lengths of y, x and z;
//            10 to 14 for the certificate; 15 at the first index
//   leaves   the one of x and z that is not the answer all zero; after a refusal both, and the verdict; the text, the certificate and y are only read
pub fn plq_answer(
    text: &[u8],
    certificate: &[u8],
    y: &[u32],
    x: &mut [u32],
    z: &mut [u32],
    verdict: &mut u8,
) -> u64
    ensures { AnswersText text.now certificate.now y.now result x.old x.new z.old z.new verdict.new }
{
    answer_from_text(text, certificate, y, x, z, verdict)
}

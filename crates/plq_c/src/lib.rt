// The library for planning programs in C (include/plq.h), as a static library: what `plq` does with a plan's text, under the same names and contracts.
#![tactic(auto)]

ghost use Rattle.std.specs.Prelude.{◌≡◌};
ghost use Rattle.text_calls.specs.Calls.{check_text_of, packed, Makes, ReportsText, AnswersText};

// Makes the certificate of a plan.
//   takes    a plan text, and a buffer of any length and content
//   gives    0, and the certificate in the buffer, zero past its end
//   refuses  reading: 2, then the first line at fault; then factoring: 7 at a row; then writing: 9 for a buffer that is too short
//   leaves   after a refusal the buffer all zero; the text is only read
#[unsafe(no_mangle)]
pub extern "C" fn plq_make_certificate(text: &[u8], buffer: &mut [u8]) -> u64
    ensures { Makes text.now result buffer.old buffer.new }
{
    plq::plq_make_certificate(text, buffer)
}

// Checks a certificate, anybody's.
//   takes    a plan text, and the bytes of a certificate
//   gives    0 exactly if the set that it holds has the published shape and its product is the plan
//   refuses  reading: 2, then the first line at fault; then checking: 10, 11, 12, 13, 14 at the first position
//   leaves   nothing: both are only read
#[unsafe(no_mangle)]
pub extern "C" fn plq_check_certificate(text: &[u8], certificate: &[u8]) -> u64
    ensures { result ≡ packed (check_text_of text.now certificate.now) }
{
    plq::plq_check_certificate(text, certificate)
}

// Reports on a plan: its sizes, its rank, and its open words with their owners.
//   takes    a plan text, and a buffer of any length and content; 65,536 bytes hold any report
//   gives    0, and the report's lines in the buffer, zero past their end
//   refuses  reading: 2, then the first line at fault; then factoring: 7 at a row; then a buffer that does not hold the report: 9
//   leaves   after a refusal the buffer all zero; the text is only read
#[unsafe(no_mangle)]
pub extern "C" fn plq_report(text: &[u8], buffer: &mut [u8]) -> u64
    ensures { ReportsText text.now result buffer.old buffer.new }
{
    plq::plq_report(text, buffer)
}

// Answers a question about a plan: from a certificate, anybody's, which is checked first; or, where it has no bytes, from the engine's own factors.
//   takes    a plan text; the bytes of a certificate, or none; a question y of m values; n cells for x, m cells for z, and one byte for the verdict
//   gives    0, and the verdict: 1, open, with the x where x A = y; or 0, closed, with a z where A z = 0 and y z is not 0
//   refuses  reading: 2, then the first line at fault; without a certificate then factoring: 7 at a row; then 9 for the lengths of y, x and z;
//            10 to 14 for the certificate; 15 at the first index
//   leaves   the one of x and z that is not the answer all zero; after a refusal both, and the verdict; the text, the certificate and y are only read
#[unsafe(no_mangle)]
pub extern "C" fn plq_answer(
    text: &[u8],
    certificate: &[u8],
    y: &[u32],
    x: &mut [u32],
    z: &mut [u32],
    verdict: &mut u8,
) -> u64
    ensures { AnswersText text.now certificate.now y.now result x.old x.new z.old z.new verdict.new }
{
    plq::plq_answer(text, certificate, y, x, z, verdict)
}

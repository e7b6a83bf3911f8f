// The call that checks a certificate against a stored plan. Any content of the working row is accepted.
ghost use Rattle.std.specs.Prelude.{◌≡◌};
ghost use Rattle.call_check.specs.Calls.{certificate_outcome, check_certificate_of, ChecksIn};
ghost use Rattle.refusals.specs.Outcome.{outcome_of};
ghost use Rattle.sparse.specs.Views.{stored_before};

use call_plan::{plan_lengths, plan_outcome};
use certificate::header::header_ok;
use certificate::parts::set_of_certificate;
use check_set::check;
use limits::WORK_CELLS;
use lists::clear_row;
use refusals::{Fault, Refusal, demand};
use residue::Modulus;
use sparse::stored::Compressed;

// The lengths, the plan and the header of a call with a certificate: 9, 1, 2, 8, 10.
fn certificate_outcome(
    p: u32,
    n: u32,
    m: u32,
    starts: &[u32],
    cols: &[u32],
    vals: &[u32],
    cert: &[u8],
    width: usize,
) -> Result<(), Refusal>
    ensures { outcome_of result ≡ certificate_outcome p n m (stored_before starts.now cols.now vals.now) cert.now width }
{
    let lengths = plan_lengths(n, starts, cols, vals) && width == WORK_CELLS;
    demand(lengths, Fault::WrongLength)?;
    plan_outcome(p, n, m, starts, cols, vals)?;
    demand(header_ok(cert, p, n, m), Fault::BadHeader)
}

// The check of a certificate for a call that has made its modulus: the other calls on a certificate begin with it.
pub fn check_bytes(
    q: Modulus,
    n: u32,
    m: u32,
    starts: &[u32],
    cols: &[u32],
    vals: &[u32],
    cert: &[u8],
    work: &mut [u64],
) -> Result<(), Refusal>
    ensures { ChecksIn (check_certificate_of q.p n m (stored_before starts.now cols.now vals.now) cert.now) (outcome_of result) work }
{
    clear_row(work);
    certificate_outcome(q.p, n, m, starts, cols, vals, cert, work.len())?;
    let plan = Compressed::stored(starts, cols, vals);
    let set = set_of_certificate(cert, n, m);
    check(q, &plan, &set, n, m, work)
}

// Checks a certificate, which is read from its own bytes.
//   takes    a stored plan, the bytes of a certificate and a working row
//   gives    passed, or the number and detail of the first fault
//   refuses  9, 1, 2, 8, 10, 11, 12, 13, 14 at the first position
//   leaves   the working row all zero
pub fn check_certificate(
    p: u32,
    n: u32,
    m: u32,
    starts: &[u32],
    cols: &[u32],
    vals: &[u32],
    cert: &[u8],
    work: &mut [u64],
) -> Result<(), Refusal>
    ensures { ChecksIn (check_certificate_of p n m (stored_before starts.now cols.now vals.now) cert.now) (outcome_of result) work }
{
    let q = Modulus { p };
    check_bytes(q, n, m, starts, cols, vals, cert, work)
}

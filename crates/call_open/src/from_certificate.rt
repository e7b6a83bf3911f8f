// The call that lists the open columns from a certificate. Any content of the list and of the working row is accepted.
ghost use Rattle.std.specs.Prelude.{length};
ghost use Rattle.row_space.specs.Solve.{open_columns};
ghost use Rattle.answer_open.specs.Opening.{ColumnsListed};
ghost use Rattle.certificate.specs.Reading.{set_of_certificate};
ghost use Rattle.call_open.specs.Calls.{open_certificate_of, ListsIn};
ghost use Rattle.call_open.specs.Needs.{OpenPartsReady};
ghost use Rattle.refusals.specs.Outcome.{outcome_of};
ghost use Rattle.sparse.specs.Views.{stored_before};

use answer_open::pivots::open_columns;
use call_check::from_certificate::check_bytes;
use certificate::parts::set_of_certificate;
use lists::{clear, clear_row};
use refusals::{Fault, Refusal};
use residue::Modulus;

// The open columns from a certificate that passed: its parts are read where they stand.
fn open_columns_of_parts(
    q: Modulus,
    n: u32,
    m: u32,
    cert: &[u8],
    marks: &mut [u32],
    work: &mut [u64],
)
    requires { OpenPartsReady q.p n m cert.now marks.old work.old }
    ensures { ColumnsListed (open_columns q.p (length marks.old) (set_of_certificate n m cert.now)) marks.new work.new }
{
    let set = set_of_certificate(cert, n, m);
    let k = set.r as usize;
    open_columns(q, &set.co, &set.u, k, marks, work);
}

// Lists the open columns from a certificate, which is read from its own bytes.
//   takes    a stored plan, the bytes of a certificate, a list of m cells and a working row
//   gives    1 for each column whose unit question is open and 0 for each other; or the number and detail of the first fault
//   refuses  9, 1, 2, 8, 10, 11, 12, 13, 14 at the first position
//   leaves   after a refusal the list all zero; the working row all zero
pub fn open_columns_from_certificate(
    p: u32,
    n: u32,
    m: u32,
    starts: &[u32],
    cols: &[u32],
    vals: &[u32],
    cert: &[u8],
    marks: &mut [u32],
    work: &mut [u64],
) -> Result<(), Refusal>
    ensures { ListsIn (open_certificate_of p n m (stored_before starts.now cols.now vals.now) cert.now) (outcome_of result) marks work }
{
    let q = Modulus { p };
    if marks.len() != m as usize {
        clear(marks);
        clear_row(work);
        return Err(Fault::WrongLength.into());
    }
    let checked = check_bytes(q, n, m, starts, cols, vals, cert, work);
    if let Err(refusal) = checked {
        clear(marks);
        return Err(refusal);
    }
    open_columns_of_parts(q, n, m, cert, marks, work);
    Ok(())
}

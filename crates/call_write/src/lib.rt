// The call that writes a certificate, without owners; `call_owned` has the public one.
#![tactic(auto)]

ghost use Rattle.certificate.specs.Layout.{certificate_of};
ghost use Rattle.call_write.specs.Call.{write_outcome, WritesIn};
ghost use Rattle.call_write.specs.Written.{written_of};
ghost use Rattle.sparse.specs.Views.{stored_before, set_before};

use call_check::check_factors;
use certificate::writer::write;
use lists::clear_bytes;
use refusals::{Fault, Refusal, demand};

// Writes the certificate of a stored set, which is checked first.
//   takes    a stored plan, a stored set, a buffer and a working row
//   gives    the certificate in the buffer, zero past its end, and its length
//   refuses  9, 1, 2, 8, 11, 12, 13, 14 at the first position, then 9 for a buffer that is too short
//   leaves   after a refusal the buffer all zero; the working row all zero
pub fn write_certificate(
    p: u32,
    n: u32,
    m: u32,
    starts: &[u32],
    cols: &[u32],
    vals: &[u32],
    r: u32,
    ro: &[u32],
    co: &[u32],
    ls: &[u32],
    lc: &[u32],
    lv: &[u32],
    us: &[u32],
    uc: &[u32],
    uv: &[u32],
    buffer: &mut [u8],
    work: &mut [u64],
) -> Result<usize, Refusal>
    ensures { WritesIn (write_outcome p n m (stored_before starts.now cols.now vals.now) (set_before r ro.now co.now ls.now lc.now lv.now us.now uc.now uv.now)) (certificate_of p n m (set_before r ro.now co.now ls.now lc.now lv.now us.now uc.now uv.now)) (written_of result) buffer work }
{
    let checked = check_factors(
        p, n, m, starts, cols, vals, r, ro, co, ls, lc, lv, us, uc, uv, work,
    );
    if let Err(refusal) = checked {
        clear_bytes(buffer);
        return Err(refusal);
    }
    let length = write(p, n, m, r, ro, co, ls, lc, lv, us, uc, uv, buffer);
    demand(0 < length, Fault::WrongLength)?;
    Ok(length)
}

// The public call that writes a certificate, with owners.
ghost use Rattle.certificate.specs.Layout.{certificate_of};
ghost use Rattle.call_write.specs.Call.{write_outcome};
ghost use Rattle.call_write.specs.Written.{written_of};
ghost use Rattle.call_owned.specs.Owned.{WritesOwned};
ghost use Rattle.sparse.specs.Views.{stored_before, set_before};

use crate::owners_fit;
use lists::{clear_bytes, clear_row};
use refusals::{Fault, Refusal};

// Writes the certificate of a stored set, which is checked first.
//   takes    a stored plan, its m owners, a stored set, a buffer and a working row
//   gives    the certificate in the buffer, zero past its end, and its length
//   refuses  9, 1, 2, 8, 11, 12, 13, 14 at the first position, then 9 for a buffer that is too short
//   leaves   after a refusal the buffer all zero; the working row all zero
pub fn write_certificate(
    p: u32,
    n: u32,
    m: u32,
    starts: &[u32],
    cols: &[u32],
    vals: &[u32],
    owners: &[u8],
    r: u32,
    ro: &[u32],
    co: &[u32],
    ls: &[u32],
    lc: &[u32],
    lv: &[u32],
    us: &[u32],
    uc: &[u32],
    uv: &[u32],
    buffer: &mut [u8],
    work: &mut [u64],
) -> Result<usize, Refusal>
    ensures { WritesOwned owners.now m (write_outcome p n m (stored_before starts.now cols.now vals.now) (set_before r ro.now co.now ls.now lc.now lv.now us.now uc.now uv.now)) (certificate_of p n m (set_before r ro.now co.now ls.now lc.now lv.now us.now uc.now uv.now)) (written_of result) buffer work }
{
    if !owners_fit(m, owners) {
        clear_bytes(buffer);
        clear_row(work);
        return Err(Fault::WrongLength.into());
    }
    call_write::write_certificate(
        p, n, m, starts, cols, vals, r, ro, co, ls, lc, lv, us, uc, uv, buffer, work,
    )
}

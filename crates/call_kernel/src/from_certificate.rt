// The call that gives the settings of the free columns from a certificate. Any content of the list and of the working row is accepted.
ghost use Rattle.std.specs.Prelude.{◌≡◌, ◌-◌, ◌*◌, ◌≤◌, eqb};
ghost use Rattle.refusals.specs.Outcome.{outcome_of};
ghost use Rattle.limits.specs.Limits.{largest_size};
ghost use Rattle.row_space.specs.Kernel.{kernel_basis};
ghost use Rattle.answer_kernel.specs.Filling.{BasisFilled};
ghost use Rattle.certificate.specs.Reading.{set_of_certificate};
ghost use Rattle.call_open.specs.Calls.{ListsIn};
ghost use Rattle.call_owned.specs.Owned.{ListsOwned};
ghost use Rattle.call_check.specs.Calls.{check_certificate_of, ChecksIn};
ghost use Rattle.call_kernel.specs.Calls.{kernel_after, kernel_certificate_of};
ghost use Rattle.call_kernel.specs.Needs.{SettingsPartsReady};
ghost use Rattle.sparse.specs.Views.{stored_before};

use call_check::from_certificate::check_bytes;
use call_owned::owners_fit;
use certificate::parts::{number, set_of_certificate};
use lists::{clear, clear_row, index};
use refusals::{Fault, Refusal, demand};
use residue::Modulus;

// The settings from a certificate that passed: its parts are read where they stand.
fn settings_of_parts(q: Modulus, n: u32, m: u32, cert: &[u8], basis: &mut [u32], work: &mut [u64])
    requires { SettingsPartsReady q.p n m cert.now basis.old work.old }
    ensures { BasisFilled (kernel_basis q.p m (set_of_certificate n m cert.now)) basis.new work.new }
{
    let set = set_of_certificate(cert, n, m);
    let width = index(m);
    answer_kernel::basis::basis(
        q,
        &set.u,
        &set.co,
        set.r as usize,
        basis,
        &mut work[..width],
    );
}

// Whether a list has m cells for each of the m - r free columns; m is at most 2,048, so that the product is small.
fn settings_fit(m: u32, r: u32, cells: usize) -> bool
    requires { (r ≤ m) × (m ≤ largest_size) }
    ensures { result ≡ eqb cells (m * (m - r)) }
{
    let width = index(m);
    let rank = index(r);
    cells == width * (width - rank)
}

// The check, then the number of cells of the list, which is known only now.
fn settings_outcome(
    q: Modulus,
    n: u32,
    m: u32,
    starts: &[u32],
    cols: &[u32],
    vals: &[u32],
    cert: &[u8],
    cells: usize,
    work: &mut [u64],
) -> Result<(), Refusal>
    ensures { ChecksIn (λ w. kernel_after (check_certificate_of q.p n m (stored_before starts.now cols.now vals.now) cert.now w) m (set_of_certificate n m cert.now).r cells) (outcome_of result) work }
{
    check_bytes(q, n, m, starts, cols, vals, cert, work)?;
    let r = number(cert, 3);
    demand(settings_fit(m, r, cells), Fault::WrongLength)
}

// The call without owners.
fn settings_tested(
    q: Modulus,
    n: u32,
    m: u32,
    starts: &[u32],
    cols: &[u32],
    vals: &[u32],
    cert: &[u8],
    basis: &mut [u32],
    work: &mut [u64],
) -> Result<(), Refusal>
    ensures { ListsIn (kernel_certificate_of q.p n m (stored_before starts.now cols.now vals.now) cert.now) (outcome_of result) basis work }
{
    let tested = settings_outcome(q, n, m, starts, cols, vals, cert, basis.len(), work);
    if let Err(refusal) = tested {
        clear(basis);
        return Err(refusal);
    }
    settings_of_parts(q, n, m, cert, basis, work);
    Ok(())
}

// Gives the settings of the free columns from a certificate, which is read from its own bytes.
//   takes    a stored plan, its m owners, the bytes of a certificate of rank r, a list of m (m - r) cells and a working row
//   gives    for each column that is no pivot column, rising, the setting of m cells that is 1 there, 0 at the other such columns and gives every
//            slot 0; or the number and detail of the first fault
//   refuses  9, 1, 2, 8, 10, 11, 12, 13, 14 at the first position; then 9 for the list
//   leaves   after a refusal the list all zero, whatever its length; the working row all zero
pub fn kernel_basis_from_certificate(
    p: u32,
    n: u32,
    m: u32,
    starts: &[u32],
    cols: &[u32],
    vals: &[u32],
    owners: &[u8],
    cert: &[u8],
    basis: &mut [u32],
    work: &mut [u64],
) -> Result<(), Refusal>
    ensures { ListsOwned owners.now m (kernel_certificate_of p n m (stored_before starts.now cols.now vals.now) cert.now) (outcome_of result) basis work }
{
    if !owners_fit(m, owners) {
        clear(basis);
        clear_row(work);
        return Err(Fault::WrongLength.into());
    }
    let q = Modulus { p };
    settings_tested(q, n, m, starts, cols, vals, cert, basis, work)
}

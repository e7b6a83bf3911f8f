// Checking a certificate against a plan's text.
ghost use Rattle.std.specs.Prelude.{◌≡◌, Ok};
ghost use Rattle.call_check.specs.Calls.{check_certificate_of, ChecksIn};
ghost use Rattle.refusals.specs.Outcome.{outcome_of};
ghost use Rattle.text_plan.specs.Call.{reading_of};
ghost use Rattle.text_plan.specs.Held.{held_plan};
ghost use Rattle.stages.specs.Lists.{Held};
ghost use Rattle.text_calls.specs.Calls.{check_text_of};
ghost use Rattle.text_calls.specs.Needs.{CheckLists};
ghost use Rattle.sparse.specs.Views.{stored_at, stored_before};

use call_check::check_certificate;
use limits::SIZE_CELLS;
use refusals::Refusal;
use text_plan::Stated;

// Checks a certificate against the plan that a reading left in lists.
fn check_held(
    stated: Stated,
    starts: &[u32],
    cols: &[u32],
    vals: &[u32],
    certificate: &[u8],
    work: &mut [u64],
) -> Result<(), Refusal>
    requires { Held (reading_of (Ok stated)) (stored_at starts.now cols.now vals.now) }
    ensures { ChecksIn (check_certificate_of stated.p stated.n stated.m (held_plan (reading_of (Ok stated)) (stored_before starts.now cols.now vals.now)) certificate.now) (outcome_of result) work }
{
    let rows = stated.n as usize + 1;
    let count = stated.count as usize;
    check_certificate(
        stated.p,
        stated.n,
        stated.m,
        &starts[..rows],
        &cols[..count],
        &vals[..count],
        certificate,
        work,
    )
}

// Reads a plan's text into lists of the largest lengths, and checks a certificate against it.
pub fn check_text(
    text: &[u8],
    certificate: &[u8],
    starts: &mut [u32],
    cols: &mut [u32],
    vals: &mut [u32],
    work: &mut [u64],
) -> Result<(), Refusal>
    requires { CheckLists (stored_at starts.old cols.old vals.old) work.old }
    ensures { outcome_of result ≡ check_text_of text.now certificate.now }
{
    let mut owners = [0u8; SIZE_CELLS];
    let stated = text_owners::read(text, starts, cols, vals, &mut owners)?;
    check_held(stated, starts, cols, vals, certificate, work)
}

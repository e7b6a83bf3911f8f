// The call that answers slot values from stored factors. Any content of s, w and the working row is accepted.
ghost use Rattle.std.specs.Prelude.{length};
ghost use Rattle.algebra.specs.Matrix.{vector};
ghost use Rattle.column_space.specs.Slots.{solve_slots};
ghost use Rattle.answer_slots.specs.Needs.{SlotsReady};
ghost use Rattle.answer_slots.specs.Solving.{SlotsAnswered};
ghost use Rattle.call_check.specs.Calls.{check_factors_of, Checks};
ghost use Rattle.refusals.specs.Outcome.{outcome_of};
ghost use Rattle.call_slots.specs.Calls.{given_solution, slots_after, slots_factors_of, SolvesIn};
ghost use Rattle.sparse.specs.Views.{stored_before, set_at, set_before};

use crate::slots::slot_lengths;
use answer_question::question::question_ok;
use answer_slots::solve::solve;
use call_check::from_factors::{check_stored, stored_set};
use column_space::SlotVerdict;
use lists::{clear, clear_row};
use refusals::{Fault, Refusal};
use residue::Modulus;

// The tests of a call with stored factors: 9, 1, 2, 8, 11 to 14, 15; k is the number of owners. The working row is left all zero.
fn heard_with_factors(
    q: Modulus,
    n: u32,
    m: u32,
    starts: &[u32],
    cols: &[u32],
    vals: &[u32],
    k: usize,
    r: u32,
    ro: &[u32],
    co: &[u32],
    ls: &[u32],
    lc: &[u32],
    lv: &[u32],
    us: &[u32],
    uc: &[u32],
    uv: &[u32],
    h: &[u32],
    slen: usize,
    wlen: usize,
    work: &mut [u64],
) -> Result<(), Refusal>
    ensures { Checks (slots_after (check_factors_of q.p n m (stored_before starts.now cols.now vals.now) (set_before r ro.now co.now ls.now lc.now lv.now us.now uc.now uv.now) (length work.old)) q.p n m k h.now slen wlen) (outcome_of result) work.old work.new }
{
    if !slot_lengths(n, m, k, h, slen, wlen) {
        clear_row(work);
        return Err(Fault::WrongLength.into());
    }
    check_stored(
        q, n, m, starts, cols, vals, r, ro, co, ls, lc, lv, us, uc, uv, work,
    )?;
    question_ok(h, q.p)
}

// The answer from stored factors that passed.
fn solve_stored(
    q: Modulus,
    r: u32,
    ro: &[u32],
    co: &[u32],
    ls: &[u32],
    lc: &[u32],
    lv: &[u32],
    us: &[u32],
    uc: &[u32],
    uv: &[u32],
    h: &[u32],
    s: &mut [u32],
    w: &mut [u32],
    work: &mut [u64],
) -> SlotVerdict
    requires { SlotsReady q.p (set_at r ro.now co.now ls.now lc.now lv.now us.now uc.now uv.now) h.now s.old w.old work.old }
    ensures { SlotsAnswered (solve_slots q.p (length w.old) (length s.old) (set_before r ro.now co.now ls.now lc.now lv.now us.now uc.now uv.now) (vector h.now)) result s.new w.new work.new }
{
    let set = stored_set(r, ro, co, ls, lc, lv, us, uc, uv);
    solve(q, &set, h, s, w, work)
}

// Answers slot values from stored factors.
//   takes    a stored plan (p, n, m, row starts, columns, values, owners), a stored set (r, row order, column order, L, U), n slot values h,
//            m cells for s, n cells for w and a working row
//   gives    solved, with s such that A s = h; or a contradiction, with w such that w A = 0 and w h is not 0; or the number and detail of the first fault
//   refuses  9, 1, 2, 8, 11, 12, 13, 14 at the first position, 15 at the first index
//   leaves   the one of s and w that is not the answer all zero, after a refusal both; the working row all zero
pub fn solve_slots_from_factors(
    p: u32,
    n: u32,
    m: u32,
    starts: &[u32],
    cols: &[u32],
    vals: &[u32],
    owners: &[u8],
    r: u32,
    ro: &[u32],
    co: &[u32],
    ls: &[u32],
    lc: &[u32],
    lv: &[u32],
    us: &[u32],
    uc: &[u32],
    uv: &[u32],
    h: &[u32],
    s: &mut [u32],
    w: &mut [u32],
    work: &mut [u64],
) -> Result<SlotVerdict, Refusal>
    ensures { SolvesIn (slots_factors_of p n m (length owners.now) (stored_before starts.now cols.now vals.now) (set_before r ro.now co.now ls.now lc.now lv.now us.now uc.now uv.now) h.now) (given_solution result) s w work }
{
    let q = Modulus { p };
    let heard = heard_with_factors(
        q,
        n,
        m,
        starts,
        cols,
        vals,
        owners.len(),
        r,
        ro,
        co,
        ls,
        lc,
        lv,
        us,
        uc,
        uv,
        h,
        s.len(),
        w.len(),
        work,
    );
    if let Err(refusal) = heard {
        clear(s);
        clear(w);
        return Err(refusal);
    }
    Ok(solve_stored(q, r, ro, co, ls, lc, lv, us, uc, uv, h, s, w, work))
}

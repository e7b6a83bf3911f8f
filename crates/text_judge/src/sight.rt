// What a line is, 5 left aside: whether its place was taken before is told elsewhere.
ghost use Rattle.std.specs.Prelude.{◌≡◌, ◌<◌, ◌&&◌};
ghost use Rattle.residue.specs.Arithmetic.{Residue};
ghost use Rattle.text_judge.specs.Judge.{in_range, residue_at, is_zero, is_last, within};
ghost use Rattle.text_judge.specs.Line.{with_signed};
ghost use Rattle.text_judge.specs.Sight.{stands_if, sight, seen_as};

use crate::judge::Sizes;
use crate::line::Triple;
use refusals::Fault;
use residue::Modulus;
use text_fields::numbers::Signed;

// The range of v: from -2,147,483,648 to 2,147,483,647.
const LARGEST_V: u64 = 2_147_483_647;

const LARGEST_MINUS_V: u64 = 2_147_483_648;

// What a line is: refused by 3 or 4, the last line, the triple v at i and j, which count from 1, or one at i and j that 6 or 7 refuses.
#[derive(Clone, Copy, Debug, PartialEq, Eq)]
pub enum Sight {
    Stops(Fault),
    Finishes,
    Stands { i: u64, j: u64, v: u32 },
    Fails { fault: Fault, i: u64, j: u64 },
}

// Whether v lies in its range.
fn in_range(v: Signed) -> bool
    ensures { result ≡ in_range v }
{
    match v {
        Signed::Plus(n) => n <= LARGEST_V,
        Signed::Minus(n) => n <= LARGEST_MINUS_V,
    }
}

// v modulo p.
fn residue_of(modulus: Modulus, v: Signed) -> u32
    requires { 0 < modulus.p }
    ensures { Residue modulus.p (residue_at modulus.p v) result }
{
    match v {
        Signed::Plus(n) => modulus.signed(false, n),
        Signed::Minus(n) => modulus.signed(true, n),
    }
}

// Whether v is written `0`.
fn is_zero(v: Signed) -> bool
    ensures { result ≡ is_zero v }
{
    match v {
        Signed::Plus(n) => n == 0,
        Signed::Minus(_) => false,
    }
}

// Whether the line is `0 0 0`.
fn is_last(i: u64, j: u64, v: Signed) -> bool
    ensures { result ≡ is_last i j v }
{
    i == 0 && j == 0 && is_zero(v)
}

// Whether i and j lie in the plan.
fn in_plan(i: u64, j: u64, s: Sizes) -> bool
    ensures { result ≡ (within i s.n && within j s.m) }
{
    (1 <= i && i <= u64::from(s.n)) && (1 <= j && j <= u64::from(s.m))
}

// A triple, which needs room unless its value is 0.
fn stands_if(full: bool, i: u64, j: u64, v: u32) -> Sight
    ensures { seen_as result ≡ stands_if full i j v }
{
    if v == 0 {
        return Sight::Stands { i, j, v };
    }
    if full {
        let fault = Fault::StorageTooShort;
        return Sight::Fails { fault, i, j };
    }
    Sight::Stands { i, j, v }
}

// The line `i j v`; `full` says whether the entry storage is used up.
fn sight_triple(full: bool, s: Sizes, i: u64, j: u64, v: Signed) -> Sight
    requires { 0 < s.modulus.p }
    ensures { seen_as result ≡ sight full s (with_signed i j (Some v)) }
{
    if is_last(i, j, v) {
        return Sight::Finishes;
    }
    if !in_plan(i, j, s) {
        return Sight::Stops(Fault::OutsidePlan);
    }
    if !in_range(v) {
        let fault = Fault::ValueOutOfRange;
        return Sight::Fails { fault, i, j };
    }
    stands_if(full, i, j, residue_of(s.modulus, v))
}

// Any line.
pub fn sight_of(full: bool, s: Sizes, line: Option<Triple>) -> Sight
    requires { 0 < s.modulus.p }
    ensures { seen_as result ≡ sight full s line }
{
    match line {
        Some(Triple { i, j, v }) => sight_triple(full, s, i, j, v),
        None => Sight::Stops(Fault::Malformed),
    }
}

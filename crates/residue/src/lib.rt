// Arithmetic modulo p on residues, the numbers 0 to p - 1.
#![tactic(auto)]

ghost use Rattle.std.specs.Prelude.{◌≡◌, ◌<◌, ◌%◌};
ghost use Rattle.residue.specs.Arithmetic.{add_mod, mul_mod, neg_mod, Residue, Residues};
ghost use Rattle.residue.specs.Inverse.{inv_mod, Invertible};
ghost use Rattle.residue.specs.Range.{is_modulus};
ghost use Rattle.residue.specs.Signed.{signed_residue};

mod prime_test;

use crate::prime_test::is_prime;

// The largest modulus that is accepted.
const LARGEST_MODULUS: u32 = 4294967291;

// The modulus p of a call, with the operations on residues modulo p.
#[derive(Clone, Copy)]
pub struct Modulus {
    pub p: u32,
}

impl Modulus {
    // The residue of x.
    pub fn reduce(self, x: u64) -> u32
        requires { 0 < self.p }
        ensures { Residue self.p (x % self.p) result }
    {
        let p = self.p as u64;
        (x % p) as u32
    }

    // The residue of x, where x is most often 0: then nothing is divided.
    pub fn reduce_cell(self, x: u64) -> u32
        requires { 0 < self.p }
        ensures { Residue self.p (x % self.p) result }
    {
        if x == 0 {
            return 0;
        }
        self.reduce(x)
    }

    // a + b: the sum is below 2 p, so p is taken away at most once and nothing is divided.
    pub fn add(self, a: u32, b: u32) -> u32
        requires { Residues self.p a b }
        ensures { Residue self.p (add_mod self.p a b) result }
    {
        let p = self.p as u64;
        let sum = a as u64 + b as u64;
        if sum < p {
            sum as u32
        } else {
            (sum - p) as u32
        }
    }

    // -a: p less a, or 0 itself, and nothing is divided
    pub fn negate(self, a: u32) -> u32
        requires { a < self.p }
        ensures { Residue self.p (neg_mod self.p a) result }
    {
        if a == 0 {
            return 0;
        }
        self.p - a
    }

    // a b
    pub fn multiply(self, a: u32, b: u32) -> u32
        requires { Residues self.p a b }
        ensures { Residue self.p (mul_mod self.p a b) result }
    {
        self.reduce(a as u64 * b as u64)
    }

    // The residue of x, where x is most often below p: then nothing is divided.
    pub fn reduce_small(self, x: u64) -> u32
        requires { 0 < self.p }
        ensures { Residue self.p (x % self.p) result }
    {
        if x < self.p as u64 {
            return x as u32;
        }
        self.reduce(x)
    }

    // The residue of a sign and a magnitude.
    pub fn signed(self, negative: bool, magnitude: u64) -> u32
        requires { 0 < self.p }
        ensures { Residue self.p (signed_residue self.p negative magnitude) result }
    {
        let r = self.reduce_small(magnitude);
        if negative { self.negate(r) } else { r }
    }

    // The inverse of a, by Euclid's divisions of p and a: t1 * x0 + t0 * x1 = p throughout, and t1 * a is x1 or -x1 modulo p.
    pub fn invert(self, a: u32) -> u32
        requires { Invertible self.p a }
        ensures { Residue self.p (inv_mod self.p a) result }
    {
        let p = self.p;
        let mut x0 = p;
        let mut x1 = a;
        let mut t0: u32 = 0;
        let mut t1: u32 = 1;
        let mut odd = false;
        // A while: Euclid's divisions.
        while x1 != 1 {
            let d = x0 / x1;
            let x2 = x0 - d * x1;
            let t2 = t0 + d * t1;
            x0 = x1;
            x1 = x2;
            t0 = t1;
            t1 = t2;
            odd = !odd;
        }
        if odd { p - t1 } else { t1 }
    }
}

// Whether p is a modulus that is accepted: a prime, and none above the largest.
pub fn is_modulus(p: u32) -> bool
    ensures { result ≡ is_modulus p }
{
    if LARGEST_MODULUS < p {
        return false;
    }
    is_prime(p)
}

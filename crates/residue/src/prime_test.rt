// The test for a prime: a table, which is enough below 65,536, then odd divisors up to the square root.
ghost use Rattle.std.specs.Prelude.{◌≡◌};
ghost use Rattle.residue.specs.Needs.{Tabled};
ghost use Rattle.residue.specs.Primality.{is_prime, passes_table};

const TABLE_LENGTH: usize = 54;

// The primes below 256.
const PRIMES: [u32; TABLE_LENGTH] = [
    2, 3, 5, 7, 11, 13, 17, 19, 23, 29, 31, 37, 41, 43, 47, 53, 59, 61, 67, 71, 73, 79, 83, 89, 97,
    101, 103, 107, 109, 113, 127, 131, 137, 139, 149, 151, 157, 163, 167, 173, 179, 181, 191, 193,
    197, 199, 211, 223, 227, 229, 233, 239, 241, 251,
];

// Whether no entry up to the square root of p divides p. It ends at the root: no entry is tried on itself, and a small p takes few steps.
fn passes_table(p: u32) -> bool
    ensures { result ≡ passes_table p }
{
    // borrowed: an array that is gone through by value is copied, entry by entry, before the first test
    let primes = PRIMES;
    for &q in &primes {
        if p < q * q {
            return true;
        }
        if p % q == 0 {
            return false;
        }
    }
    true
}

// Whether no odd number from 257 up to the square root of p divides p. There is none unless p is above 66,048.
fn passes_odd(p: u32) -> bool
    requires { Tabled p }
    ensures { result ≡ is_prime p }
{
    // the root of a smaller p is not looked for
    if p < 66049 {
        return true;
    }
    for d in (257..=p.isqrt()).step_by(2) {
        if p % d == 0 {
            return false;
        }
    }
    true
}

// Whether p is prime.
pub fn is_prime(p: u32) -> bool
    ensures { result ≡ is_prime p }
{
    if p < 2 {
        return false;
    }
    if !passes_table(p) {
        return false;
    }
    passes_odd(p)
}

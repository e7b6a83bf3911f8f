// The parts of a certificate: the numbers of its header, and where the lists of its set stand.
ghost use Rattle.std.specs.Prelude.{◌≡◌, ◌≤◌, ◌<◌, length};
ghost use Rattle.certificate.specs.Reading.{field, places_of, places_in, Located, numbers_in, set_of_certificate};
ghost use Rattle.sparse.specs.Views.{set_in};

use lists::index;
use sparse::set::Factors;
use sparse::stored::Compressed;
use sparse::words::Words;

// The byte at which each list begins, and the one after the last list: R, C, then starts, columns and values of L and of U.
#[derive(Clone, Copy)]
pub struct Places {
    pub ro: usize,
    pub co: usize,
    pub ls: usize,
    pub lc: usize,
    pub lv: usize,
    pub us: usize,
    pub uc: usize,
    pub uv: usize,
    pub end: usize,
}

// The places, by the sizes of a set: each list follows the one before.
pub fn places_of(n: u32, m: u32, r: u32, lcount: u32, ucount: u32) -> Places
    ensures { result ≡ places_of n m r lcount ucount }
{
    let height = index(n);
    let width = index(m);
    let rank = index(r);
    let lower = index(lcount);
    let upper = index(ucount);
    let ro = 29;
    let co = ro + 4 * height;
    let ls = co + 4 * width;
    let lc = ls + 4 * (height + 1);
    let lv = lc + 4 * lower;
    let us = lv + 4 * lower;
    let uc = us + 4 * (rank + 1);
    let uv = uc + 4 * upper;
    let end = uv + 4 * upper;
    Places {
        ro,
        co,
        ls,
        lc,
        lv,
        us,
        uc,
        uv,
        end,
    }
}

// The header's number k: p, n, m, r, the entry counts of L and U.
pub fn number(cert: &[u8], k: usize) -> u32
    requires { (k < 6) × (29 ≤ length cert.now) }
    ensures { result ≡ field cert.now k }
{
    Words::held(&cert[5..]).at(k)
}

// The places in a certificate that has the right length for an n by m matrix and the rank and entry counts of its header.
fn places_in(cert: &[u8], n: u32, m: u32) -> Places
    requires { length cert.now ≡ (places_in n m cert.now).end }
    ensures { Located n m cert.now result }
{
    let r = number(cert, 3);
    let lcount = number(cert, 4);
    let ucount = number(cert, 5);
    places_of(n, m, r, lcount, ucount)
}

// The numbers that stand from byte a up to byte e.
fn numbers_in(cert: &[u8], a: usize, e: usize) -> Words
    requires { (a ≤ e) × (e ≤ length cert.now) }
    ensures { result ≡ numbers_in cert.entry.now a e }
{
    Words::held(&cert[a..e])
}

// The set in a certificate that has the right length for an n by m matrix and the rank and entry counts of its header. Its lists are
// read where they stand.
pub fn set_of_certificate(cert: &[u8], n: u32, m: u32) -> Factors
    requires { length cert.now ≡ (places_in n m cert.now).end }
    ensures { set_in result ≡ set_of_certificate n m cert.entry.now }
{
    let places = places_in(cert, n, m);
    Factors {
        r: number(cert, 3),
        ro: numbers_in(cert, places.ro, places.co),
        co: numbers_in(cert, places.co, places.ls),
        l: Compressed {
            starts: numbers_in(cert, places.ls, places.lc),
            cols: numbers_in(cert, places.lc, places.lv),
            vals: numbers_in(cert, places.lv, places.us),
        },
        u: Compressed {
            starts: numbers_in(cert, places.us, places.uc),
            cols: numbers_in(cert, places.uc, places.uv),
            vals: numbers_in(cert, places.uv, places.end),
        },
    }
}

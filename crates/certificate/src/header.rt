// The test of a certificate's header.
ghost use Rattle.std.specs.Prelude.{◌≡◌, ◌≤◌, length};
ghost use Rattle.certificate.specs.Reading.{length_ok, sizes_ok, header_ok};

use crate::parts::{number, places_of};

// Whether the length is the one that the header's own numbers give.
fn length_ok(cert: &[u8]) -> bool
    requires { 29 ≤ length cert.now }
    ensures { result ≡ length_ok cert.now }
{
    let n = number(cert, 1);
    let m = number(cert, 2);
    let r = number(cert, 3);
    let lcount = number(cert, 4);
    let ucount = number(cert, 5);
    let places = places_of(n, m, r, lcount, ucount);
    places.end == cert.len()
}

// Whether p, n and m are those of the matrix.
fn sizes_ok(cert: &[u8], p: u32, n: u32, m: u32) -> bool
    requires { 29 ≤ length cert.now }
    ensures { result ≡ sizes_ok p n m cert.now }
{
    if number(cert, 0) != p {
        return false;
    }
    if number(cert, 1) != n {
        return false;
    }
    number(cert, 2) == m
}

// Whether mark, version, length and sizes are those of a certificate for an n by m matrix modulo p.
pub fn header_ok(cert: &[u8], p: u32, n: u32, m: u32) -> bool
    ensures { result ≡ header_ok p n m cert.now }
{
    if !cert.starts_with(b"PLQ") {
        return false;
    }
    if cert.len() < 29 {
        return false;
    }
    if !cert[3..].starts_with(b"\x01\x00") {
        return false;
    }
    if !length_ok(cert) {
        return false;
    }
    sizes_ok(cert, p, n, m)
}

// Writing a certificate into a lent buffer.
ghost use Rattle.std.specs.Prelude.{◌≡◌, ◌∷◌, [], ◌++◌, ◌+◌, ◌*◌, ◌≤◌, length};
ghost use Rattle.std.proofs.lemmas.List.Edits.{sets};
ghost use Rattle.lists.specs.Stored.{Stored};
ghost use Rattle.certificate.specs.Layout.{bytes, mark, version, header_numbers, factor_numbers, certificate_of};
ghost use Rattle.certificate.specs.Writing.{Writes, Writable, CertificateRoom};
ghost use Rattle.sparse.specs.Views.{stored_before, set_at, set_before};

use crate::parts::places_of;
use byte_buffer::put_bytes;
use lists::clear_bytes;

// Stores a number as four bytes, least significant first.
fn put_word(x: u32, buffer: &mut [u8], at: usize)
    requires { at + 4 ≤ length buffer.old }
    ensures { buffer.new ≡ sets buffer.old at (bytes (x ∷ [])) }
{
    buffer[at..at + 4].copy_from_slice(&x.to_le_bytes());
}

// Stores the numbers of a list from a place on; the place after them.
fn put_words(list: &[u32], buffer: &mut [u8], at: usize) -> usize
    requires { at + 4 * length list.now ≤ length buffer.old }
    ensures { Stored buffer.old buffer.new at result (bytes list.now) }
{
    let mut next = at;
    for x in list {
        put_word(*x, buffer, next);
        next += 4;
    }
    next
}

// Stores mark, version and the header's numbers at the front; the place after them.
fn put_header(p: u32, n: u32, m: u32, r: u32, lcount: u32, ucount: u32, buffer: &mut [u8]) -> usize
    requires { 29 ≤ length buffer.old }
    ensures { Stored buffer.old buffer.new 0 result (mark ++ (version ++ bytes (header_numbers p n m r lcount ucount))) }
{
    let numbers = [p, n, m, r, lcount, ucount];
    let after_mark = put_bytes(b"PLQ", buffer, 0);
    let after_version = put_bytes(b"\x01\x00", buffer, after_mark);
    put_words(&numbers, buffer, after_version)
}

// Stores the three lists of a factor from a place on; the place after them.
fn put_factor(starts: &[u32], cols: &[u32], vals: &[u32], buffer: &mut [u8], at: usize) -> usize
    requires { at + 4 * (length starts.now + (length cols.now + length vals.now)) ≤ length buffer.old }
    ensures { Stored buffer.old buffer.new at result (bytes (factor_numbers (stored_before starts.now cols.now vals.now))) }
{
    let after_starts = put_words(starts, buffer, at);
    let after_cols = put_words(cols, buffer, after_starts);
    put_words(vals, buffer, after_cols)
}

// Stores the certificate of a set at the front of a buffer that has room for it; its length.
fn put_certificate(
    p: u32,
    n: u32,
    m: u32,
    r: u32,
    ro: &[u32],
    co: &[u32],
    ls: &[u32],
    lc: &[u32],
    lv: &[u32],
    us: &[u32],
    uc: &[u32],
    uv: &[u32],
    buffer: &mut [u8],
) -> usize
    requires { CertificateRoom p n m (set_at r ro.now co.now ls.now lc.now lv.now us.now uc.now uv.now) buffer.old }
    ensures { Stored buffer.old buffer.new 0 result (certificate_of p n m (set_before r ro.now co.now ls.now lc.now lv.now us.now uc.now uv.now)) }
{
    let after_header = put_header(p, n, m, r, lc.len() as u32, uc.len() as u32, buffer);
    let after_rows = put_words(ro, buffer, after_header);
    let after_cols = put_words(co, buffer, after_rows);
    let after_lower = put_factor(ls, lc, lv, buffer, after_cols);
    put_factor(us, uc, uv, buffer, after_lower)
}

// Writes the certificate of a set into the lent buffer, zero past its end; its length, or 0 where the buffer is shorter
// than that (refusal 9), which leaves the buffer all zero.
pub fn write(
    p: u32,
    n: u32,
    m: u32,
    r: u32,
    ro: &[u32],
    co: &[u32],
    ls: &[u32],
    lc: &[u32],
    lv: &[u32],
    us: &[u32],
    uc: &[u32],
    uv: &[u32],
    buffer: &mut [u8],
) -> usize
    requires { Writable n m (set_at r ro.now co.now ls.now lc.now lv.now us.now uc.now uv.now) }
    ensures { Writes (certificate_of p n m (set_before r ro.now co.now ls.now lc.now lv.now us.now uc.now uv.now)) buffer.old buffer.new result }
{
    clear_bytes(buffer);
    let places = places_of(n, m, r, lc.len() as u32, uc.len() as u32);
    if buffer.len() < places.end {
        return 0;
    }
    put_certificate(p, n, m, r, ro, co, ls, lc, lv, us, uc, uv, buffer)
}

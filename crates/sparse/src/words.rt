// Numbers of a list that is stored or held by bytes.
ghost use Rattle.std.specs.Prelude.{IfSome, List, ℕ, ◌≡◌, ◌+◌, ◌-◌, ◌*◌, ◌/◌, ◌^◌, ◌≤◌, ◌<◌, min, length, get_or, take, drop};
ghost use Rattle.std.proofs.Math.Seq.{slice};
ghost use Rattle.sparse.specs.Words.{numbers, words};
ghost use Rattle.sparse.specs.Views.{view_at, view_before};

use lists::part;
use std::marker::Model;

// Numbers that can be read by their place, wherever they stand: one loop over them serves stored lists, bytes, and lists of which
// it is not known.
pub trait Numbers {
    ghost numbers: { Self → List ℕ };

    // How many numbers there are.
    fn count(&self) -> usize
        ensures { result ≡ length (numbers self.now) };

    // The number at place i.
    fn number(&self, i: usize) -> u32
        requires { i < length (numbers self.now) }
        ensures { result ≡ get_or (numbers self.now) i 0 };
}

impl<'a> Numbers for &'a [u32] {
    ghost numbers = { λ list. list.now };

    fn count(&self) -> usize {
        self.len()
    }

    fn number(&self, i: usize) -> u32 {
        self[i]
    }
}

// The bytes of numbers.
#[derive(Clone, Copy)]
pub struct Held<'a> {
    pub bytes: &'a [u8],
}

impl<'a> Numbers for Held<'a> {
    ghost numbers = { λ held. words held.bytes.now };

    fn count(&self) -> usize {
        self.bytes.len() / 4
    }

    fn number(&self, i: usize) -> u32 {
        word_at(self.bytes, i)
    }
}

// A list of numbers that is stored or held by the bytes of a certificate: the stored ones, then those of the bytes. In a contract it is
// the list of its numbers.
#[derive(Drop)]
pub struct Words<'a> {
    list: &'a [u32],
    bytes: &'a [u8],
}

impl<'a> Model for Words<'a> {
    ghost use Rattle.std.specs.Prelude.{ℕ, List};
    ghost use Rattle.sparse.specs.Words.{numbers};

    ghost Value = { List ℕ };

    ghost view = { λ w. numbers w.list.now w.bytes.now };
}

impl<'a> Words<'a> {
    // A stored list.
    pub fn stored(list: &'a [u32]) -> Words<'a>
        ensures { result ≡ list.entry.now }
    {
        Words { list, bytes: b"" }
    }

    // The numbers that bytes hold.
    pub fn held(bytes: &'a [u8]) -> Words<'a>
        ensures { result ≡ words bytes.entry.now }
    {
        Words { list: &[], bytes }
    }

    // A stored list, followed by the numbers that bytes hold.
    pub fn joined(list: &'a [u32], bytes: &'a [u8]) -> Words<'a>
        ensures { result ≡ numbers list.entry.now bytes.entry.now }
    {
        Words { list, bytes }
    }

    // How many numbers there are.
    pub fn len(&self) -> usize
        ensures { result ≡ length self.now }
    {
        count(self.list, self.bytes)
    }

    // The number at place i.
    pub fn at(&self, i: usize) -> u32
        requires { i < length self.now }
        ensures value { result ≡ get_or self.now i 0 }
        ensures room { i + 1 < 2 ^ 64 }
    {
        word(self.list, self.bytes, i)
    }

    // The number after place i.
    pub fn after(&self, i: usize) -> u32
        requires { i + 1 < length self.now }
        ensures { result ≡ get_or self.now (i + 1) 0 }
    {
        word(self.list, self.bytes, i + 1)
    }

    // The numbers from place a up to place e: a part of the stored list alone, where no number is held by bytes.
    pub fn part(&self, a: usize, e: usize) -> Words<'a>
        requires { (a ≤ e) × (e ≤ length self.now) }
        ensures { result ≡ slice a e self.now }
    {
        if self.bytes.len() == 0 {
            return Words::stored(part(self.list, a, e));
        }
        Words {
            list: list_part(self.list, a, e),
            bytes: bytes_part(self.list.len(), self.bytes, a, e),
        }
    }

    // The stored list, where no number is held by bytes.
    pub fn as_list(&self) -> Option<&'a [u32]>
        ensures { IfSome result (λ l. l.now ≡ self.now) }
    {
        if self.bytes.len() == 0 {
            return Some(self.list);
        }
        None
    }

    // The bytes, where no number is stored.
    pub fn as_held(&self) -> Option<Held<'a>>
        ensures { IfSome result (λ held. words held.bytes.now ≡ self.now) }
    {
        if self.list.len() == 0 {
            return Some(Held { bytes: self.bytes });
        }
        None
    }
}

impl<'a> Numbers for Words<'a> {
    ghost numbers = { λ list. list };

    fn count(&self) -> usize {
        self.len()
    }

    fn number(&self, i: usize) -> u32 {
        self.at(i)
    }
}

// The 32-bit number at place k of the bytes.
fn word_at(bytes: &[u8], k: usize) -> u32
    requires { 4 * k + 4 ≤ length bytes.now }
    ensures { result ≡ get_or (words bytes.now) k 0 }
{
    let at = 4 * k;
    u32::from_le_bytes([bytes[at], bytes[at + 1], bytes[at + 2], bytes[at + 3]])
}

// How many numbers the list has.
fn count(list: &[u32], bytes: &[u8]) -> usize
    ensures { result ≡ length (view_before list.now bytes.now) }
{
    list.len() + bytes.len() / 4
}

// The number at place i. The first two tests do not depend on i: of a loop over i the compiler makes one loop for lists and one for bytes.
fn word(list: &[u32], bytes: &[u8], i: usize) -> u32
    requires { i < length (view_at list.now bytes.now) }
    ensures { result ≡ get_or (view_before list.now bytes.now) i 0 }
{
    let n = list.len();
    if bytes.len() == 0 {
        return list[i];
    }
    if n == 0 {
        return word_at(bytes, i);
    }
    if i < n {
        return list[i];
    }
    word_at(bytes, i - n)
}

// The part of the stored list that lies from place a up to place e.
fn list_part(list: &[u32], a: usize, e: usize) -> &[u32]
    requires { a ≤ e }
    ensures { result.now ≡ take (min e (length list.now) - min a (length list.now)) (drop (min a (length list.now)) list.now) }
{
    let n = list.len();
    let a1 = a.min(n);
    let e1 = e.min(n);
    &list[a1..e1]
}

// The part of the bytes that lies from place a up to place e, after n stored numbers.
fn bytes_part(n: usize, bytes: &[u8], a: usize, e: usize) -> &[u8]
    requires { (a ≤ e) × (e ≤ n + length bytes.now / 4) }
    ensures { result.now ≡ take (4 * (e - min e n) - 4 * (a - min a n)) (drop (4 * (a - min a n)) bytes.now) }
{
    let a2 = 4 * (a - a.min(n));
    let e2 = 4 * (e - e.min(n));
    &bytes[a2..e2]
}

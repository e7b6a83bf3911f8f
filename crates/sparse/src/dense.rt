// Rows on their way between storage and the working row, whose cells stand for their residues modulo p. Most cells of a
// working row are 0: those are passed over, and are not divided.
ghost use Rattle.std.specs.Prelude.{◌≡◌, [], ◌∷◌, ◌+◌, ◌*◌, ◌%◌, ◌<◌, eqb, length, get_or};
ghost use Rattle.lists.specs.Tabulate.{tabulate};
ghost use Rattle.lists.specs.Tests.{first};
ghost use Rattle.algebra.specs.Matrix.{vector};
ghost use Rattle.residue.specs.Arithmetic.{Residue, Residues};
ghost use Rattle.sparse.specs.Row.{entry, weigh};
ghost use Rattle.sparse.specs.WorkingRow.{Cell};
ghost use Rattle.sparse.specs.Storing.{LoadReady, DotReady, Room, DenseStored};

use crate::scan::next_nonzero;
use crate::stored::SparseRow;
use lists::index;
use residue::Modulus;

// Puts a sparse row into a working row that is all zero. The modulus bounds the cells and is not computed with.
pub fn load(row: &SparseRow, p: u32, work: &mut [u64])
    requires { LoadReady p row.now.cols row.now.vals work.old }
    ensures { work.new ≡ tabulate (length work.old) (entry row.now.cols row.now.vals) }
{
    for t in 0..row.cols.len() {
        let j = index(row.cols.at(t));
        let v = row.vals.at(t);
        work[j] = work[j] + v as u64;
    }
}

// s + v x modulo p, below p p as s is: no division.
fn add_product(q: Modulus, s: u64, v: u32, x: u32) -> u64
    requires { (s < q.p * q.p) × Residues q.p v x }
    ensures { Cell q.p 0 (s + v * x) result }
{
    let square = q.p as u64 * q.p as u64;
    let product = v as u64 * x as u64;
    let rest = square - product;
    if s < rest { s + product } else { s - rest }
}

// The product of a sparse row and a vector of residues.
pub fn dot(q: Modulus, row: &SparseRow, z: &[u32]) -> u32
    requires { DotReady q.p row.now.cols row.now.vals z.now }
    ensures { Residue q.p (weigh row.now.cols row.now.vals (vector z.now) % q.p) result }
{
    let mut s: u64 = 0;
    for t in 0..row.cols.len() {
        let j = index(row.cols.at(t));
        let v = row.vals.at(t);
        s = add_product(q, s, v, z[j]);
    }
    q.reduce(s)
}

// Whether a cell stands for 0.
fn is_zero(q: Modulus, x: u64) -> bool
    requires { 0 < q.p }
    ensures { result ≡ eqb (x % q.p) 0 }
{
    q.reduce_cell(x) == 0
}

// The first cell that stands for another residue than 0, or the length.
pub fn first_nonzero(q: Modulus, work: &[u64]) -> usize
    requires { 0 < q.p }
    ensures { result ≡ first (length work.now) (λ j. eqb (get_or work.now j 0 % q.p) 0) }
{
    let mut j = 0;
    // A while: the search gives the next place.
    while j < work.len() {
        if !is_zero(q, work[j]) {
            return j;
        }
        j = next_nonzero(work, j + 1);
    }
    j
}

// Stores the value v at column j in place `at`, unless it is 0; gives the next place.
pub fn put(v: u32, j: u32, at: usize, cols: &mut [u32], vals: &mut [u32]) -> usize
    requires { Room at (v ∷ []) cols.old vals.old }
    ensures { DenseStored j at (v ∷ []) cols.old vals.old cols.new vals.new result }
{
    if v == 0 {
        return at;
    }
    cols[at] = j;
    vals[at] = v;
    at + 1
}

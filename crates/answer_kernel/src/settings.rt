// The settings of the free columns, filled in one after another, m cells each: m is the length of the working row.
ghost use Rattle.std.specs.Prelude.{length, ◌≡◌};
ghost use Rattle.lists.specs.Stored.{Stored};
ghost use Rattle.answer_kernel.specs.Filling.{block_of, free_settings};
ghost use Rattle.answer_kernel.specs.Needs.{BlockReady, SettingsReady};

use answer_question::answer::kernel_vector;
use residue::Modulus;
use sparse::stored::Compressed;
use sparse::words::Words;

// The setting of the column c at the place `at`, where the column is not marked; returns the place after it.
pub fn fill_block(
    q: Modulus,
    u: &Compressed,
    co: &Words,
    r: usize,
    c: usize,
    at: usize,
    basis: &mut [u32],
    work: &[u64],
) -> usize
    requires { BlockReady q.p r c at u.now co.now basis.old work.now }
    ensures { Stored basis.old basis.new at result (block_of q.p (length work.now) r co.now u.now c) }
{
    if work[c] != 0 {
        return at;
    }
    let e = at + work.len();
    let block = &mut basis[at..e];
    kernel_vector(q, u, co, r, c, block);
    e // where the next block begins
}

// The settings of the columns that are not marked, rising, one after another.
pub fn fill_settings(
    q: Modulus,
    u: &Compressed,
    co: &Words,
    r: usize,
    basis: &mut [u32],
    work: &[u64],
)
    requires { SettingsReady q.p r u.now co.now basis.old work.now }
    ensures { basis.new ≡ free_settings q.p (length work.now) r co.now u.now }
{
    let mut at = 0;
    for c in 0..work.len() {
        at = fill_block(q, u, co, r, c, at, basis, work);
    }
}

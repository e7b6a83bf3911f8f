// Bytes stored in a lent buffer, one run after another.
#![tactic(auto)]

ghost use Rattle.std.specs.Prelude.{◌+◌, ◌≤◌, length};
ghost use Rattle.lists.specs.Stored.{Stored};

// Stores bytes from a place on; the place after them.
pub fn put_bytes(list: &[u8], buffer: &mut [u8], at: usize) -> usize
    requires { at + length list.now ≤ length buffer.old }
    ensures { Stored buffer.old buffer.new at result list.now }
{
    let next = at + list.len();
    buffer[at..next].copy_from_slice(list);
    next
}

// The first cells of a list.
ghost use Rattle.io.specs.Counts.{IsPrefixLen};

use lists::index;

// A length, or that of the list where the list is shorter.
pub fn within(list: &[u32], length: u32) -> usize
    ensures { IsPrefixLen result list.now }
{
    index(length).min(list.len())
}

// The same for a list of bytes.
pub fn within_bytes(bytes: &[u8], length: u32) -> usize
    ensures { IsPrefixLen result bytes.now }
{
    index(length).min(bytes.len())
}

// The same by a length in memory.
fn within_size(bytes: &[u8], size: usize) -> usize
    ensures { IsPrefixLen result bytes.now }
{
    size.min(bytes.len())
}

// The same for a working row.
pub fn within_row(row: &[u64], length: u32) -> usize
    ensures { IsPrefixLen result row.now }
{
    index(length).min(row.len())
}

// The first cells of a list, or all where it is shorter.
pub fn first(list: &[u32], length: u32) -> &[u32] {
    &list[..within(list, length)]
}

// The first bytes of a list, or all where it is shorter.
pub fn first_bytes(bytes: &[u8], length: u32) -> &[u8] {
    &bytes[..within_bytes(bytes, length)]
}

// The same by a length in memory.
pub fn first_size(bytes: &[u8], size: usize) -> &[u8] {
    &bytes[..within_size(bytes, size)]
}

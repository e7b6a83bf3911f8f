// Document 01's limits (specs/Limits), for code: as numbers that are compared, and as lengths of lists.
#![tactic(auto)]

// n and m, as a stored plan has them and as a text states them.
pub const LARGEST_SIZE: u32 = 2048;

pub const LARGEST_STATED: u64 = 2048;

// A list with a cell for each row or column.
pub const SIZE_CELLS: usize = 2048;

// A list with the start of each row, and where the last one ends.
pub const START_CELLS: usize = 2049;

// The entries of a plan or a factor.
pub const ENTRY_CELLS: usize = 16384;

// A working row.
pub const WORK_CELLS: usize = 2048;

// The bytes of a plan text.
pub const LARGEST_TEXT: usize = 65536;

// A buffer that holds whatever is printed.
pub const PRINT_ROOM: usize = 65536;

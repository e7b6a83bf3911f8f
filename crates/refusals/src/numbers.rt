// The table of numbers (specs/Table), for code. 0 is: done, passed or answered.
pub const BAD_MODULUS: u32 = 1;

pub const OVER_LIMIT: u32 = 2;

pub const MALFORMED: u32 = 3;

pub const OUTSIDE_PLAN: u32 = 4;

pub const REPEATED_PLACE: u32 = 5;

pub const VALUE_OUT_OF_RANGE: u32 = 6;

pub const STORAGE_TOO_SHORT: u32 = 7;

pub const BAD_PLAN: u32 = 8;

pub const WRONG_LENGTH: u32 = 9;

pub const BAD_HEADER: u32 = 10;

pub const NO_PERMUTATION: u32 = 11;

pub const RANK_TOO_LARGE: u32 = 12;

pub const BAD_FACTORS: u32 = 13;

pub const PRODUCT_DIFFERS: u32 = 14;

pub const QUESTION_TOO_LARGE: u32 = 15;

pub const OWNER_TOO_LARGE: u32 = 16;

// A set of factors: the rank, the orders, and L and U.
use crate::stored::Compressed;
use crate::words::Words;

// A set of factors (document 01's set): the rank r, the row and the column order, L and U.
#[derive(Drop)]
pub struct Factors<'a> {
    pub r: u32,
    pub ro: Words<'a>,
    pub co: Words<'a>,
    pub l: Compressed<'a>,
    pub u: Compressed<'a>,
}

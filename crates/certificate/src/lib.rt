// Certificates: the test of the header, the parts that hold the lists of a set, and the writer.
#![tactic(auto)]

pub mod header;
pub mod parts;
pub mod writer;

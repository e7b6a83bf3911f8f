// What the programs print, written into a lent buffer.
#![tactic(auto)]

pub mod answer;
pub mod lines;
mod number;
pub mod report;
pub mod settings;
mod totals;
mod values;

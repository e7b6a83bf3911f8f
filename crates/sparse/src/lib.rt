// Matrices stored by compressed rows, and the working row. `words` has lists of numbers that are stored or held by the bytes of a certificate,
// `stored` the rows and matrices made of them, `set` a set of factors. What writes or changes a row takes lists: `copying`, `lookup`, `dense::put`.
#![tactic(auto)]

pub mod copying;
pub mod dense;
pub mod form;
pub mod growing;
pub mod kernel;
pub mod lookup;
pub mod scan;
pub mod set;
pub mod stored;
pub mod words;

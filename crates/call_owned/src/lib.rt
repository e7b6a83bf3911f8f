// The public calls on a stored plan with the owners of its words (document 02, slip 4). Each tests that there is an owner for each word and then is
// the call without them: owners alter no factor, no certificate and no verdict on a question.
#![tactic(auto)]

ghost use Rattle.std.specs.Prelude.{◌≡◌, eqb, length};

pub mod answer;
pub mod check;
pub mod factor;
pub mod open;
pub mod write;

// Whether there is an owner for each of the m words.
pub fn owners_fit(m: u32, owners: &[u8]) -> bool
    ensures { result ≡ eqb (length owners.now) m }
{
    owners.len() == lists::index(m)
}

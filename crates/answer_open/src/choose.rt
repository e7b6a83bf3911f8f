// Values for the columns that are no pivot columns, by a fixed rule that looks like chance. Which ones they are decides only how much a witness
// shows.
ghost use Rattle.std.specs.Prelude.{◌≤◌, ◌<◌, ◌^◌};
ghost use Rattle.answer_open.specs.Witness.{Chosen};
ghost use Rattle.answer_open.specs.Needs.{ChooseReady};

use lists::{clear, index};
use sparse::words::Words;

// The number after x, in the series that `seed` names. Its high digits look like chance.
fn next_number(seed: u32, x: u32) -> u32
    ensures { result < 2 ^ 31 }
{
    ((x as u64 * 1103515245 + seed as u64 * 32722 + 12345) % 2147483648) as u32
}

// A residue from the high digits of x, other than 0 where there is more than one such; nothing is divided.
fn residue_from(p: u32, x: u32) -> u32
    requires { (2 ≤ p) × (x < 2 ^ 31) }
    ensures { result < p }
{
    if p == 2 {
        return x / 1073741824;
    }
    (x as u64 * (p - 1) as u64 / 2147483648) as u32 + 1
}

// Gives each column that is no pivot column a residue, and each pivot column 0.
pub fn choose_values(p: u32, co: &Words, r: usize, seed: u32, values: &mut [u32])
    requires { ChooseReady p r co.now values.old }
    ensures { Chosen p r co.now values.new }
{
    clear(values);
    let mut x: u32 = 2147483647; // its residue is not 0, so that there is always a witness
    for i in r..values.len() {
        let c = index(co.at(i));
        values[c] = residue_from(p, x);
        x = next_number(seed, x);
    }
}

// The cases of the settings that fit (document 02, slip 7), one line each: the name, the number of a refusal and its detail, 0 and 0 where there is none, the list of the
// settings as it was left, and how many cells of the working row are not 0. Lent lists hold 9s before.
#![tactic(auto)]

mod cases;
mod run;

fn main(rt: HostRuntime) {
    cases::lengths(&rt);
    cases::faults(&rt);
    cases::one_slot(&rt);
    cases::sizes(&rt);
}

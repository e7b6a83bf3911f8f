// The cases of slot values (document 02, slip 6), two lines each: the name, then from stored factors and from their certificate what was returned (`solved`,
// `contradiction`, or the number of a refusal and its detail, where an index counts from 0), s, w, and how many cells of the working row are not 0. Lent lists
// hold 9s before. A set that does not pass has no certificate: no bytes are handed then.
#![tactic(auto)]

mod lengths;
mod plan_d;
mod run;
mod sets;

fn main(rt: HostRuntime) {
    plan_d::settings(&rt);
    plan_d::contradictions(&rt);
    plan_d::values(&rt);
    plan_d::certificates(&rt);
    sets::sizes(&rt);
    sets::falling(&rt);
    sets::moduli(&rt);
    sets::faults(&rt);
    lengths::all(&rt);
    lengths::sets(&rt);
}

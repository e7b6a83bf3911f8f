// The cases of document 01 that concern factoring, one line each: the name; the number and its detail, where a row counts from 0 as
// the library counts it; the rank and the number of structural pivots; and how many cells of R, C, L's starts, columns and values, U's
// starts, columns and values and the working row are not 0. Lent lists hold 9s before. Where factoring is done, R, C, L and U follow.
#![tactic(auto)]

mod block;
mod plan_d;
mod plans;

fn main(rt: HostRuntime) {
    plans::sizes(&rt);
    plans::gaps(&rt);
    plans::elimination(&rt);
    plans::structure(&rt);
    plans::moduli(&rt);
    block::contents(&rt);
    block::sizes(&rt);
    block::lower_rooms(&rt);
    block::upper_rooms(&rt);
    plan_d::rooms(&rt);
    plan_d::sweep(&rt);
    plan_d::moduli(&rt);
    plan_d::sizes(&rt);
    plan_d::forms(&rt);
    plan_d::plan_lengths(&rt);
    plan_d::order_lengths(&rt);
    plan_d::lower_lengths(&rt);
    plan_d::upper_lengths(&rt);
}

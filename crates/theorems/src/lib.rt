// The reviewer's file: the theorems behind the three demands, one module a demand, and no code.
#![tactic(auto)]

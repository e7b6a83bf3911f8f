// PLUQ factors of a plan under document 01's pivot rules: definitions in specs/, theorems in proofs/.
#![tactic(auto)]

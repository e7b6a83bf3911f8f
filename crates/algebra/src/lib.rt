// Linear algebra modulo a prime: definitions in specs/, theorems in proofs/, and no code.
#![tactic(auto)]

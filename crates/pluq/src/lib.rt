// The judgement of a set of factors: definitions in specs/, theorems in proofs/, and no code.
#![tactic(auto)]

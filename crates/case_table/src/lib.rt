// The cases of document 01 that are marked to be proved: the plans in specs/, the table in proofs/, and no code.
#![tactic(auto)]

// No code: the demands as theorems over the definitions, in proofs/, from Demand1.antt on. specs/
// has the words that they are stated with.
#![tactic(auto)]

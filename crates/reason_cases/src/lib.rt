// The worked reasons of document 02, C-13, as theorems about the definitions; no code. See specs/ and proofs/.
#![tactic(auto)]

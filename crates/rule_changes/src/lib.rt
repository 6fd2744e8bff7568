// What the requests that changed the rules did to the answers, as theorems; no code. See specs/ and proofs/.
#![tactic(auto)]

// A route between two clocks on a strip of five cells, as a theorem about the definitions; no code. See specs/ and proofs/.
#![tactic(auto)]

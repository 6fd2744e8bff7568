// The reference model of a session and demand 3, as definitions and theorems; no code. See specs/ and proofs/Demand3.antt.
#![tactic(auto)]

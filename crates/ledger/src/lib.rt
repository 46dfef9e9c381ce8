// Demand 3: one answer for each Open. Definitions and proofs alone, no code.
#![tactic(auto)]

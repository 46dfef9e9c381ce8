// The marked cases M1 to M12: definitions and one proof, no code.
#![tactic(auto)]

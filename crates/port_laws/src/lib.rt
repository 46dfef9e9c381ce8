// Laws of a port over every list of shelf events: definitions and proofs alone, and no code.
#![tactic(auto)]

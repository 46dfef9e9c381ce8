// Laws of a bay's steps and gaps: definitions and proofs alone, and no code.
#![tactic(auto)]

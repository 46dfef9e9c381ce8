// Laws over every valid phy: definitions and proofs alone, no code.
#![tactic(auto)]

// The soonest run of a kind: definitions and mathematics, with no code.
#![tactic(auto)]

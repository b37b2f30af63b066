// Whether a run keeps a formula, decided position by position (02, item 4): definitions and
// mathematics, with no code.
#![tactic(auto)]

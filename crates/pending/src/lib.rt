// What is pending and its progression (01, 'What is pending'): definitions and mathematics, with no
// code.
#![tactic(auto)]

// The whole outcome of the entry that shows why (02, item 4), and the theorems that tie it to the
// logic: definitions and mathematics, with no code.
#![tactic(auto)]

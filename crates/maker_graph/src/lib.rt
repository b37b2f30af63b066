// The graph of pairs gives the made table: definitions and mathematics for the maker, with no code.
#![tactic(auto)]

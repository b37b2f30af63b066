// Where in a line of a rule book something is not of the grammar. The book reader says the line and is
// proved to be right; these functions only look for the place in that line, and are proved to be safe.
// Where they find none the line is told alone.
#![tactic(auto)]

mod fault;
mod grammar;

pub use fault::{Fault, Finding};
pub use grammar::scan_line;

// Lines of a rule book, and what is counted in them: numbers, marks, nodes and brackets. The book reader
// says the line and is proved to be right; these functions only look for what is to be told of it, and
// are proved to be safe.
#![tactic(auto)]

mod counting;
mod lines;

pub use counting::{Numeral, deepest, large_number, leaves_out, nodes, wrong_mark};
pub use lines::{line, text_to};

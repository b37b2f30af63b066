// Where in a table file something is wrong, and which actions it allows nowhere. The table reader and
// the checker decide and are proved to be right; these functions only look for the place, and are proved
// to be safe.
#![tactic(auto)]

mod fields;
mod layout;
mod steps;

pub use fields::{actions, row_count, row_state, rows, states, steps_count};
pub use layout::{Fault, Part, check_layout};
pub use steps::{StepFault, allowed_somewhere, has, waiting_state, withheld, wrong_step};

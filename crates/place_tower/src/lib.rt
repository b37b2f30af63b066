// Where in a tower file something is wrong, where its fields lie, and the file as it would be if the
// player were sure to come. The tower reader decides and is proved to be right; these functions only look
// for the place, and are proved to be safe.
#![tactic(auto)]

mod faults;
mod fields;
mod sure;

pub use faults::{ActionFault, MarkFault, TargetFault, bad_action, bad_mark, bad_target, stuck};
pub use fields::{
    action_place, actions, kind, marks, start, state_place, state_size, states, states_place,
    target,
};
pub use sure::sure_copy;

// The first action, target or mask that is wrong.
use crate::fields;
use place_bytes::{number_at, two_at};

// An action that is wrong, and the byte at which it is: its length is 0, or there is no such kind.
#[derive(Clone, Copy)]
pub enum ActionFault {
    Length {
        action: usize,
        at: usize,
    },
    Kind {
        action: usize,
        at: usize,
        kind: usize,
    },
}

// A target that is no state, and the byte at which it is.
#[derive(Clone, Copy)]
pub struct TargetFault {
    pub state: usize,
    pub action: usize,
    pub at: usize,
    pub target: usize,
}

// A mark of a state that the tower does not have, and the byte at which the state's marks begin.
#[derive(Clone, Copy)]
pub struct MarkFault {
    pub state: usize,
    pub at: usize,
    pub mark: usize,
}

// What is wrong with an action.
fn action_fault(bytes: &[u8], action: usize) -> Option<ActionFault> {
    let at = fields::action_place(action);
    if number_at(bytes, at) == 0 {
        return Some(ActionFault::Length { action, at });
    }
    let kind = fields::kind(bytes, action);
    file_kinds::unknown(kind).then(|| ActionFault::Kind {
        action,
        at: fields::kind_place(action),
        kind,
    })
}

// The first action that is wrong.
pub fn bad_action(bytes: &[u8]) -> Option<ActionFault> {
    (0..fields::actions(bytes)).find_map(|action| action_fault(bytes, action))
}

// A target that is neither a state nor 255.
fn target_fault(bytes: &[u8], state: usize, action: usize) -> Option<TargetFault> {
    let target = fields::target(bytes, state, action)?;
    (fields::states(bytes) <= target).then(|| TargetFault {
        state,
        action,
        at: fields::target_place(bytes, state, action),
        target,
    })
}

// The first target of a state that is wrong.
fn bad_target_of(bytes: &[u8], state: usize) -> Option<TargetFault> {
    (0..fields::actions(bytes)).find_map(|action| target_fault(bytes, state, action))
}

// The first target that is wrong.
pub fn bad_target(bytes: &[u8]) -> Option<TargetFault> {
    (0..fields::states(bytes)).find_map(|state| bad_target_of(bytes, state))
}

// The lowest mark of a state that the tower does not have.
fn mark_fault(bytes: &[u8], state: usize) -> Option<MarkFault> {
    let at = fields::state_place(bytes, state);
    let mask = two_at(bytes, at);
    let mark = (fields::marks(bytes)..16).find(|mark| mask >> *mark & 1 == 1)?;
    Some(MarkFault { state, at, mark })
}

// The first state that has a mark which the tower does not have.
pub fn bad_mark(bytes: &[u8]) -> Option<MarkFault> {
    (0..fields::states(bytes)).find_map(|state| mark_fault(bytes, state))
}

// Whether an action is enabled in a state, and counts as going on.
fn leads_on(bytes: &[u8], state: usize, action: usize) -> bool {
    fields::target(bytes, state, action).is_some()
        && file_kinds::goes_on(fields::kind(bytes, action))
}

// Whether some action is.
fn goes_on(bytes: &[u8], state: usize) -> bool {
    (0..fields::actions(bytes)).any(|action| leads_on(bytes, state, action))
}

// The first state that no action leaves but the player's.
pub fn stuck(bytes: &[u8]) -> Option<usize> {
    (0..fields::states(bytes)).find(|state| !goes_on(bytes, *state))
}

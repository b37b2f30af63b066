// The steps of a row against the tower: the action behind reasons b and c; rows that wait for the player
// alone; and the actions that no row allows.
use crate::fields;
use place_tower::target;

// A step that is wrong: its action is not enabled, or leads to another state than the target row has.
#[derive(Clone, Copy)]
pub enum StepFault {
    NotEnabled {
        action: usize,
    },
    OtherState {
        action: usize,
        state: usize,
        target_row: usize,
    },
}

// The step of a row that has an action.
fn step_of(bytes: &[u8], row: usize, action: usize) -> Option<usize> {
    let first = fields::row_first(bytes, row);
    let end = first.saturating_add(fields::row_count(bytes, row));
    (first..end).find(|step| fields::step_action(bytes, *step) == action)
}

// Whether a row has an action.
pub fn has(bytes: &[u8], row: usize, action: usize) -> bool {
    step_of(bytes, row, action).is_some_and(|step| step < fields::steps_count(bytes))
}

// Whether a row withholds an action that is enabled and may not be withheld.
fn withholds(tower: &[u8], bytes: &[u8], row: usize, action: usize) -> bool {
    !file_kinds::controllable(place_tower::kind(tower, action))
        && target(tower, fields::row_state(bytes, row), action).is_some()
        && !has(bytes, row, action)
}

// The first such action of a row.
pub fn withheld(tower: &[u8], bytes: &[u8], row: usize) -> Option<usize> {
    (0..place_tower::actions(tower)).find(|action| withholds(tower, bytes, row, *action))
}

// What is wrong with the step of an action of a row, if it has one.
fn step_fault(tower: &[u8], bytes: &[u8], row: usize, action: usize) -> Option<StepFault> {
    let step = step_of(bytes, row, action)?;
    let Some(state) = target(tower, fields::row_state(bytes, row), action) else {
        return Some(StepFault::NotEnabled { action });
    };
    let target_row = fields::step_target(bytes, step);
    (fields::row_state(bytes, target_row) != state).then(|| StepFault::OtherState {
        action,
        state,
        target_row,
    })
}

// The first step of a row that is wrong.
pub fn wrong_step(tower: &[u8], bytes: &[u8], row: usize) -> Option<StepFault> {
    (0..place_tower::actions(tower)).find_map(|action| step_fault(tower, bytes, row, action))
}

// Whether a step is not the player's.
fn goes_on(tower: &[u8], bytes: &[u8], step: usize) -> bool {
    file_kinds::goes_on(place_tower::kind(tower, fields::step_action(bytes, step)))
}

// Whether a row has no step but the player's.
fn waits(tower: &[u8], bytes: &[u8], row: usize) -> bool {
    let first = fields::row_first(bytes, row);
    let end = first.saturating_add(fields::row_count(bytes, row));
    !(first..end).any(|step| goes_on(tower, bytes, step))
}

// The state of the first row that waits for the player alone.
pub fn waiting_state(tower: &[u8], bytes: &[u8]) -> Option<usize> {
    let row = (0..fields::rows(bytes)).find(|row| waits(tower, bytes, *row))?;
    Some(fields::row_state(bytes, row))
}

// Whether some row allows an action.
pub fn allowed_somewhere(bytes: &[u8], action: usize) -> bool {
    (0..fields::steps_count(bytes)).any(|step| fields::step_action(bytes, step) == action)
}

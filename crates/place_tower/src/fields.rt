// The fields of a tower file; what lies past its end is 0.
ghost use Rattle.std.specs.Prelude.{◌<◌};

use place_bytes::number_at;

// The numbers of states, actions and marks, and the start state.
pub fn states(bytes: &[u8]) -> usize
    ensures { result < 256 }
{
    number_at(bytes, 0)
}

pub fn actions(bytes: &[u8]) -> usize
    ensures { result < 256 }
{
    number_at(bytes, 1)
}

pub fn marks(bytes: &[u8]) -> usize
    ensures { result < 256 }
{
    number_at(bytes, 2)
}

pub fn start(bytes: &[u8]) -> usize
    ensures { result < 256 }
{
    number_at(bytes, 3)
}

// Where an action begins: its length, and then its kind.
pub fn action_place(action: usize) -> usize {
    action.saturating_mul(2).saturating_add(8)
}

// Where the kind of an action is.
pub fn kind_place(action: usize) -> usize {
    action_place(action).saturating_add(1)
}

// The kind of an action (crates/file_kinds).
pub fn kind(bytes: &[u8], action: usize) -> usize {
    number_at(bytes, kind_place(action))
}

// Where the states begin.
pub fn states_place(bytes: &[u8]) -> usize {
    action_place(actions(bytes))
}

// The bytes of a state: its marks, and a target for each action.
pub fn state_size(bytes: &[u8]) -> usize {
    actions(bytes).saturating_add(2)
}

// Where a state begins; the number of states gives where the file ends.
pub fn state_place(bytes: &[u8], state: usize) -> usize {
    state_size(bytes)
        .saturating_mul(state)
        .saturating_add(states_place(bytes))
}

// Where the target of an action in a state is.
pub fn target_place(bytes: &[u8], state: usize, action: usize) -> usize {
    state_place(bytes, state)
        .saturating_add(2)
        .saturating_add(action)
}

// The target of an action in a state; none if it is not enabled.
pub fn target(bytes: &[u8], state: usize, action: usize) -> Option<usize> {
    match number_at(bytes, target_place(bytes, state, action)) {
        255 => None,
        target => Some(target),
    }
}

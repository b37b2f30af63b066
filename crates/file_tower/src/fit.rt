// When a tower file is fit: the tests of 01, 'Why a call is turned down', for 1 to 5. Each is over
// the whole file, and takes for granted that those before it found nothing.
ghost use Rattle.std.specs.Prelude.{◌<◌, ◌≡◌};
ghost use Rattle.logic.specs.Tower.{states_of, actions_of, no_header, bad_counts, bad_size, bad_actions, bad_targets, bad_masks};
ghost use Rattle.file_tower.specs.Stages.{Headed, Counted, Sized, bad_offsets, bad_action, bad_target, bad_targets_of, bad_mask};

use crate::fields;

// The most marks.
const MOST_MARKS: usize = 16;

// 1: the header is not whole.
pub fn no_header(bytes: &[u8]) -> bool
    ensures { result ≡ no_header bytes.now }
{
    let layout = file_layout::layout_of(bytes);
    bytes.len() < layout.header
}

// 2: a count or the start is out of range.
pub fn bad_counts(bytes: &[u8]) -> bool
    requires { Headed bytes.now }
    ensures { result ≡ bad_counts bytes.now }
{
    let layout = file_layout::layout_of(bytes);
    let states = fields::states_of(bytes);
    if !file_layout::in_range(layout.most, states) {
        return true;
    }
    if !file_layout::in_range(file_layout::MOST_ACTIONS, fields::actions_of(bytes)) {
        return true;
    }
    if MOST_MARKS < fields::marks_of(bytes) {
        return true;
    }
    states <= fields::start_of(bytes)
}

// A header offset is wrong.
fn bad_offsets(bytes: &[u8]) -> bool
    requires { Counted bytes.now }
    ensures { result ≡ bad_offsets bytes.now }
{
    let layout = file_layout::layout_of(bytes);
    if fields::actions_offset(bytes) != layout.header {
        return true;
    }
    fields::states_offset(bytes) != fields::states_at(bytes)
}

// 1: a header offset or the length is wrong.
pub fn bad_size(bytes: &[u8]) -> bool
    requires { Counted bytes.now }
    ensures { result ≡ bad_size bytes.now }
{
    if bad_offsets(bytes) {
        return true;
    }
    let states = fields::states_of(bytes);
    bytes.len() != fields::state_at(bytes, states)
}

// Action a has length 0, or no known kind.
fn bad_action(bytes: &[u8], a: usize) -> bool
    requires sized { Sized bytes.now }
    requires a_bound { a < actions_of bytes.now }
    ensures { result ≡ bad_action bytes.now a }
{
    if fields::length_of(bytes, a) == 0 {
        return true;
    }
    file_kinds::unknown(fields::kind_of(bytes, a))
}

// 3: an action of length 0, or of no known kind.
pub fn bad_actions(bytes: &[u8]) -> bool
    requires { Sized bytes.now }
    ensures { result ≡ bad_actions bytes.now }
{
    let actions = fields::actions_of(bytes);
    for a in 0..actions {
        if bad_action(bytes, a) {
            return true;
        }
    }
    false
}

// The target of action a in state x is neither a state nor 'not enabled'.
fn bad_target(bytes: &[u8], x: usize, a: usize) -> bool
    requires sized { Sized bytes.now }
    requires x_bound { x < states_of bytes.now }
    requires a_bound { a < actions_of bytes.now }
    ensures { result ≡ bad_target bytes.now x a }
{
    let target = fields::target_of(bytes, x, a);
    if target < fields::states_of(bytes) {
        return false;
    }
    let layout = file_layout::layout_of(bytes);
    target != layout.disabled
}

// Some target in state x is neither a state nor 'not enabled'.
fn bad_targets_of(bytes: &[u8], x: usize) -> bool
    requires sized { Sized bytes.now }
    requires x_bound { x < states_of bytes.now }
    ensures { result ≡ bad_targets_of bytes.now x }
{
    let actions = fields::actions_of(bytes);
    for a in 0..actions {
        if bad_target(bytes, x, a) {
            return true;
        }
    }
    false
}

// 4: a target that is neither a state nor 'not enabled'.
pub fn bad_targets(bytes: &[u8]) -> bool
    requires { Sized bytes.now }
    ensures { result ≡ bad_targets bytes.now }
{
    let states = fields::states_of(bytes);
    for x in 0..states {
        if bad_targets_of(bytes, x) {
            return true;
        }
    }
    false
}

// The mask of state x has a bit at or above P.
fn bad_mask(bytes: &[u8], x: usize) -> bool
    requires sized { Sized bytes.now }
    requires x_bound { x < states_of bytes.now }
    ensures { result ≡ bad_mask bytes.now x }
{
    let above = 1usize << fields::marks_of(bytes);
    above <= fields::mask_of(bytes, x)
}

// 5: a mask with a bit at or above P.
pub fn bad_masks(bytes: &[u8]) -> bool
    requires { Sized bytes.now }
    ensures { result ≡ bad_masks bytes.now }
{
    let states = fields::states_of(bytes);
    for x in 0..states {
        if bad_mask(bytes, x) {
            return true;
        }
    }
    false
}

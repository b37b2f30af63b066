// What is wrong with a tower file: 1 to 5, and 12 where the tower alone is to blame.
#![tactic(auto)]

use place_bytes::two_at;
use place_tower::ActionFault;
use program_saying::in_file;
use std::fmt;
use std::fmt::{Display, Formatter, Write};
use std::io::Eprint;

// The longest tower file; the programs read one byte more of a longer one.
const LONGEST: usize = 3640;

// The length of a file, or that it has more bytes than the longest has.
#[derive(Clone, Copy)]
struct FileSize(usize);

impl Display for FileSize {
    fn fmt<W: Write>(&self, f: &mut Formatter<W>) -> fmt::Result {
        let length = self.0;
        if LONGEST < length {
            f.write_str("more than 3640 bytes")
        } else {
            write!(f, "{length} bytes")
        }
    }
}

// The marks that there are.
#[derive(Clone, Copy)]
pub struct Marks(pub usize);

impl Display for Marks {
    fn fmt<W: Write>(&self, f: &mut Formatter<W>) -> fmt::Result {
        let marks = self.0;
        match marks {
            0 => f.write_str("the tower has no marks"),
            1 => f.write_str("the tower has 1 mark, p0"),
            _ => write!(f, "the tower has {marks} marks, p0 to p{}", marks - 1),
        }
    }
}

// A value of the header that is wrong, and what it must be.
fn must_be<R: Eprint>(rt: &R, file: &[u8], name: &str, value: usize, right: impl Display + Drop) {
    in_file(
        rt,
        file,
        format_args!("{name} is {value}; it must be {right}"),
    );
}

// The length is not that of the counts.
fn length<R: Eprint>(rt: &R, file: &[u8], bytes: &[u8]) {
    let length = FileSize(bytes.len());
    let states = place_tower::states(bytes);
    let actions = place_tower::actions(bytes);
    let right = place_tower::state_place(bytes, states);
    in_file(
        rt,
        file,
        format_args!(
            "the file has {length}; with {states} states and {actions} actions it must have {right}"
        ),
    );
}

// 1: no header, an offset, or the length.
pub fn size<R: Eprint>(rt: &R, file: &[u8], bytes: &[u8]) {
    let actions_at = two_at(bytes, 4);
    let states_at = two_at(bytes, 6);
    let right = place_tower::states_place(bytes);
    if bytes.len() < 8 {
        let length = FileSize(bytes.len());
        in_file(
            rt,
            file,
            format_args!("the file has {length}; a tower file begins with a header of 8"),
        );
    } else if actions_at != 8 {
        must_be(
            rt,
            file,
            "the offset of the actions (bytes 4 and 5)",
            actions_at,
            8,
        );
    } else if states_at != right {
        must_be(
            rt,
            file,
            "the offset of the states (bytes 6 and 7)",
            states_at,
            right,
        );
    } else {
        length(rt, file, bytes);
    }
}

// 2: a count, or the start state.
pub fn range<R: Eprint>(rt: &R, file: &[u8], bytes: &[u8]) {
    let states = place_tower::states(bytes);
    let actions = place_tower::actions(bytes);
    let marks = place_tower::marks(bytes);
    if !(1..=200).contains(&states) {
        must_be(
            rt,
            file,
            "the number of states (byte 0)",
            states,
            "1 to 200",
        );
    } else if !(1..=16).contains(&actions) {
        must_be(
            rt,
            file,
            "the number of actions (byte 1)",
            actions,
            "1 to 16",
        );
    } else if 16 < marks {
        must_be(rt, file, "the number of marks (byte 2)", marks, "0 to 16");
    } else {
        let last = states.saturating_sub(1);
        must_be(
            rt,
            file,
            "the start state (byte 3)",
            place_tower::start(bytes),
            format_args!("a state, 0 to {last}"),
        );
    }
}

// 3: the length or the kind of an action.
pub fn action<R: Eprint>(rt: &R, file: &[u8], bytes: &[u8]) {
    match place_tower::bad_action(bytes) {
        Some(ActionFault::Length { action, at }) => in_file(
            rt,
            file,
            format_args!("action {action}: its length (byte {at}) is 0; it must be 1 to 255"),
        ),
        Some(ActionFault::Kind { action, at, kind }) => in_file(
            rt,
            file,
            format_args!(
                "action {action}: its kind (byte {at}) is {kind}; it must be 0, the player's, 1, ours, or 2, sure to come"
            ),
        ),
        None => in_file(rt, file, "the length or the kind of an action is wrong"),
    }
}

// 4: a target.
pub fn target<R: Eprint>(rt: &R, file: &[u8], bytes: &[u8]) {
    let Some(fault) = place_tower::bad_target(bytes) else {
        return in_file(rt, file, "a target is wrong");
    };
    let last = place_tower::states(bytes).saturating_sub(1);
    in_file(
        rt,
        file,
        format_args!(
            "state {}, action {}: its target (byte {}) is {}; it must be a state, 0 to {last}, or 255 where the action is not enabled",
            fault.state, fault.action, fault.at, fault.target
        ),
    );
}

// 5: a mark of a state.
pub fn mask<R: Eprint>(rt: &R, file: &[u8], bytes: &[u8]) {
    let marks = Marks(place_tower::marks(bytes));
    let Some(fault) = place_tower::bad_mark(bytes) else {
        return in_file(rt, file, marks);
    };
    in_file(
        rt,
        file,
        format_args!(
            "state {} (bytes from {} on) has mark p{}; {marks}",
            fault.state, fault.at, fault.mark
        ),
    );
}

// Where a dead end is, if one is found.
#[derive(Clone, Copy)]
struct DeadEnd(Option<usize>);

impl Display for DeadEnd {
    fn fmt<W: Write>(&self, f: &mut Formatter<W>) -> fmt::Result {
        match self.0 {
            Some(state) => write!(f, ", such as state {state}"),
            None => Ok(()),
        }
    }
}

// 12 without a rule.
pub fn dead_end<R: Eprint>(rt: &R, file: &[u8], bytes: &[u8]) {
    let such_as = DeadEnd(place_tower::stuck(bytes));
    in_file(
        rt,
        file,
        format_args!(
            "no table is good for this tower, even without any rule: a dead end cannot be kept away from, a state that no action leaves but the player's{such_as}; the rules are not to blame"
        ),
    );
}

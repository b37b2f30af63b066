// What is wrong with a table file: 13 and 14.
#![tactic(auto)]

use base::Reason;
use place_table::{Fault, Part, StepFault};
use program_saying::{Shown, in_file, say};
use std::fmt;
use std::fmt::{Display, Formatter, Write};
use std::io::Eprint;

// The longest table file; the programs read one byte more of a longer one.
const LONGEST: usize = 52012;

// What is wrong with the layout.
#[derive(Clone, Copy)]
struct LayoutFault(Fault);

impl Display for LayoutFault {
    fn fmt<W: Write>(&self, f: &mut Formatter<W>) -> fmt::Result {
        let Fault { part, value, limit } = self.0;
        match part {
            Part::NoHeader => write!(
                f,
                "the file has {value} bytes; a table file begins with a header of {limit}"
            ),
            Part::Rows => write!(
                f,
                "the number of rows (bytes 0 and 1) is {value}; it must be 1 to {limit}"
            ),
            Part::States => write!(
                f,
                "the number of states (bytes 8 and 9) is {value}; it must be 1 to {limit}"
            ),
            Part::Actions => write!(
                f,
                "the number of actions (bytes 10 and 11) is {value}; it must be 1 to {limit}"
            ),
            Part::RowsOffset => write!(
                f,
                "the offset of the rows (bytes 4 and 5) is {value}; it must be {limit}"
            ),
            Part::StepsOffset => write!(
                f,
                "the offset of the steps (bytes 6 and 7) is {value}; by the number of rows it must be {limit}"
            ),
            Part::Length if LONGEST < value => {
                f.write_str("the file has more than 52012 bytes, more than any table")
            }
            Part::Length => write!(
                f,
                "the file has {value} bytes; by its counts of rows and steps it must have {limit}"
            ),
            Part::RowState(row) => write!(
                f,
                "row {row}: its state is {value}; it must be below the number of states, {limit}"
            ),
            Part::FirstStep(row) => write!(
                f,
                "row {row}: its first step is {value}; by the rows before it, it must be {limit}"
            ),
            Part::StepAction(step) => write!(
                f,
                "step {step} (counted from 0 over all rows): its action is {value}; it must be below the number of actions, {limit}"
            ),
            Part::StepOrder(step) => write!(
                f,
                "step {step} (counted from 0 over all rows): its action is {value}; the actions of a row rise, so it must be at least {limit}"
            ),
            Part::StepTarget(step) => write!(
                f,
                "step {step} (counted from 0 over all rows): its target row is {value}; it must be below the number of rows, {limit}"
            ),
            Part::StepCount(row) => write!(
                f,
                "up to row {row} the rows have {value} steps; the header says {limit}"
            ),
        }
    }
}

// The table is for another tower.
fn other_tower<R: Eprint>(rt: &R, table: &[u8], bytes: &[u8], tower: &[u8], tower_bytes: &[u8]) {
    in_file(
        rt,
        table,
        format_args!(
            "the table is for a tower with {} states and {} actions; {} has {} and {}",
            place_table::states(bytes),
            place_table::actions(bytes),
            Shown(tower),
            place_tower::states(tower_bytes),
            place_tower::actions(tower_bytes)
        ),
    );
}

// 13: the layout, or another tower's table.
pub fn layout<R: Eprint>(rt: &R, table: &[u8], bytes: &[u8], tower: &[u8], tower_bytes: &[u8]) {
    match place_table::check_layout(bytes) {
        Ok(()) => other_tower(rt, table, bytes, tower, tower_bytes),
        Err(fault) => in_file(rt, table, LayoutFault(fault)),
    }
}

// A row of a table: the name of the file, its bytes, and the number of the row.
#[derive(Clone, Copy)]
struct Row<'a> {
    table: &'a [u8],
    bytes: &'a [u8],
    number: usize,
}

impl<'a> Row<'a> {
    // Says what is wrong with the row.
    fn say<R: Eprint>(&self, rt: &R, words: impl Display + Drop) {
        let number = self.number;
        let state = place_table::row_state(self.bytes, number);
        say(
            rt,
            format_args!(
                "{}, row {number}, state {state}: {words}\n",
                Shown(self.table)
            ),
        );
    }
}

// Whose an action is that may not be withheld.
fn whose(tower: &[u8], action: usize) -> &'static str {
    if file_kinds::goes_on(place_tower::kind(tower, action)) {
        "is sure to come"
    } else {
        "is the player's"
    }
}

// b: the action that is withheld and may not be.
fn withheld<R: Eprint>(rt: &R, tower: &[u8], row: &Row<'_>) {
    let Some(action) = place_table::withheld(tower, row.bytes, row.number) else {
        return row.say(
            rt,
            "an action that may not be withheld is enabled there and not allowed",
        );
    };
    let whose = whose(tower, action);
    row.say(
        rt,
        format_args!("action {action} {whose} and enabled there, and the row does not allow it"),
    );
}

// c: the allowed action that is not enabled or leads elsewhere.
fn wrong_step<R: Eprint>(rt: &R, tower: &[u8], row: &Row<'_>) {
    match place_table::wrong_step(tower, row.bytes, row.number) {
        Some(StepFault::NotEnabled { action }) => row.say(
            rt,
            format_args!("action {action} is allowed, and not enabled in this state"),
        ),
        Some(
            StepFault::OtherState {
                action,
                state,
                target_row,
            },
        ) => row.say(
            rt,
            format_args!(
                "action {action} leads to state {state}, and its target row {target_row} has state {}",
                place_table::row_state(row.bytes, target_row)
            ),
        ),
        None => row.say(
            rt,
            "an allowed action is not enabled there, or its target row has not the state that it leads to",
        ),
    }
}

// d: the row has no step, or steps of the player's alone.
fn stopped<R: Eprint>(rt: &R, row: &Row<'_>) {
    let words = if place_table::row_count(row.bytes, row.number) == 0 {
        "the row allows no action, so that the tower stops there"
    } else {
        "the row allows no action but the player's, so that the tower stops there when nobody plays"
    };
    row.say(rt, words);
}

// a: row 0 has another state.
fn start<R: Eprint>(rt: &R, tower: &[u8], row: &Row<'_>) {
    let state = place_tower::start(tower);
    row.say(rt, format_args!("the tower starts in state {state}"));
}

// 14: why a table is not good.
pub fn not_good<R: Eprint>(rt: &R, table: &[u8], bytes: &[u8], tower: &[u8], reason: Reason) {
    let row = |number| Row {
        table,
        bytes,
        number,
    };
    match reason {
        Reason::Start => start(rt, tower, &row(0)),
        Reason::Withheld(number) => withheld(rt, tower, &row(number)),
        Reason::WrongStep(number) => wrong_step(rt, tower, &row(number)),
        Reason::Stopped(number) => stopped(rt, &row(number)),
        Reason::Broken => in_file(rt, table, "a run that it allows breaks a rule of the book"),
    }
}

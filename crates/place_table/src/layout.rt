// How a table file is not laid out, in the order in which the table reader looks.
use crate::fields;
use place_bytes::two_at;

// The part of a table file that is wrong; of the rows and steps with its number, and of the count of the
// steps with the number of rows that were counted.
#[derive(Clone, Copy)]
pub enum Part {
    NoHeader,
    Rows,
    States,
    Actions,
    RowsOffset,
    StepsOffset,
    Length,
    RowState(usize),
    FirstStep(usize),
    StepAction(usize),
    StepOrder(usize),
    StepTarget(usize),
    StepCount(usize),
}

// What is wrong, the value that is there, and what it should be, at least be or be below.
#[derive(Clone, Copy)]
pub struct Fault {
    pub part: Part,
    pub value: usize,
    pub limit: usize,
}

// Nothing is wrong with a part if its value is as it must be.
fn must(holds: bool, part: Part, value: usize, limit: usize) -> Result<(), Fault> {
    if holds {
        Ok(())
    } else {
        Err(Fault { part, value, limit })
    }
}

// A count is from 1 to a limit.
fn counted(part: Part, value: usize, limit: usize) -> Result<(), Fault> {
    must((1..=limit).contains(&value), part, value, limit)
}

// The counts of the header are in range.
fn counts(bytes: &[u8]) -> Result<(), Fault> {
    counted(Part::Rows, fields::rows(bytes), 1000)?;
    counted(Part::States, fields::states(bytes), 200)?;
    counted(Part::Actions, fields::actions(bytes), 16)
}

// A value is the right one.
fn equals(part: Part, value: usize, right: usize) -> Result<(), Fault> {
    must(value == right, part, value, right)
}

// The offsets and the length are those of the counts.
fn places(bytes: &[u8]) -> Result<(), Fault> {
    let steps_at = fields::step_place(bytes, 0);
    let length = fields::step_place(bytes, fields::steps_count(bytes));
    equals(Part::RowsOffset, two_at(bytes, 4), 12)?;
    equals(Part::StepsOffset, two_at(bytes, 6), steps_at)?;
    equals(Part::Length, bytes.len(), length)
}

// A value is below a limit.
fn below(part: Part, value: usize, limit: usize) -> Result<(), Fault> {
    must(value < limit, part, value, limit)
}

// A step of a row, whose action has to be `low` or above.
fn step(bytes: &[u8], number: usize, low: usize) -> Result<(), Fault> {
    let action = fields::step_action(bytes, number);
    let target = fields::step_target(bytes, number);
    below(Part::StepAction(number), action, fields::actions(bytes))?;
    must(low <= action, Part::StepOrder(number), action, low)?;
    below(Part::StepTarget(number), target, fields::rows(bytes))
}

// The `count` steps from `first` on.
fn steps(bytes: &[u8], first: usize, count: usize) -> Result<(), Fault> {
    let mut low = 0;
    for number in first..first.saturating_add(count) {
        step(bytes, number, low)?;
        low = fields::step_action(bytes, number).saturating_add(1);
    }
    Ok(())
}

// A row, before which there are so many steps.
fn row(bytes: &[u8], number: usize, before: usize) -> Result<(), Fault> {
    let state = fields::row_state(bytes, number);
    let first = fields::row_first(bytes, number);
    let count = fields::row_count(bytes, number);
    let end = first.saturating_add(count);
    let all = fields::steps_count(bytes);
    below(Part::RowState(number), state, fields::states(bytes))?;
    equals(Part::FirstStep(number), first, before)?;
    must(end <= all, Part::StepCount(number), end, all)?;
    steps(bytes, first, count)
}

// The rows, and the count of their steps.
fn all_rows(bytes: &[u8]) -> Result<(), Fault> {
    let rows = fields::rows(bytes);
    let mut before = 0usize;
    for number in 0..rows {
        row(bytes, number, before)?;
        before = before.saturating_add(fields::row_count(bytes, number));
    }
    equals(Part::StepCount(rows), before, fields::steps_count(bytes))
}

// The layout of a table file, or the first thing that is wrong with it.
pub fn check_layout(bytes: &[u8]) -> Result<(), Fault> {
    must(12 <= bytes.len(), Part::NoHeader, bytes.len(), 12)?;
    counts(bytes)?;
    places(bytes)?;
    all_rows(bytes)
}

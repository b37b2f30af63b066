// What is wrong with a log, in plain words: a line that is not of the form, 19, and a line that does not
// fit. Lines are counted from 1 here, as editors count them.
#![tactic(auto)]

use outcome::LogPlace;
use place_bytes::{byte_at, digits, spelled};
use program_saying::{Shown, say};
use reading::Stroke;
use std::fmt;
use std::fmt::{Display, Formatter, Write};
use std::io::Eprint;

// The most digits of a tick and of an action, and the largest tick.
const TICK_DIGITS: usize = 10;

const ACTION_DIGITS: usize = 2;

const MOST_TICK: u64 = 4294967295;

// Says what is wrong with a line; the number is counted from 0.
fn in_line<R: Eprint>(rt: &R, log: &[u8], line: usize, words: impl Display + Drop) {
    let number = line.saturating_add(1);
    say(rt, format_args!("{}, line {number}: {words}\n", Shown(log)));
}

// The log ends inside the line.
const CUT: &str = "the log ends in the middle of this line: it may have been cut off";

// What is wrong behind an action.
fn behind_action(bytes: &[u8], at: usize) -> &'static str {
    match bytes.get(at) {
        None => "the last line has no line end (byte 10): the log may have been cut off",
        Some(b'\r') => {
            "the line ends with a carriage return, as Windows editors save files; save the log with line ends of Unix (LF)"
        }
        Some(b' ') => "nothing may stand behind the action, and here a space does",
        Some(_) => "behind the action, of one or two digits, the line must end",
    }
}

// What is wrong from the action on.
fn at_action(bytes: &[u8], at: usize) -> &'static str {
    match bytes.get(at) {
        None => CUT,
        Some(b'0'..=b'9') => {
            behind_action(bytes, at.saturating_add(digits(bytes, at, ACTION_DIGITS)))
        }
        Some(b' ') => "between tick and action one space stands, and here are more",
        Some(_) => "behind the space the number of an action must follow, in one or two digits",
    }
}

// What is wrong behind a tick.
fn behind_tick(bytes: &[u8], at: usize) -> &'static str {
    match bytes.get(at) {
        None => CUT,
        Some(b' ') => at_action(bytes, at.saturating_add(1)),
        Some(b'\t') => "a tab stands behind the tick; it must be one space",
        Some(_) => "behind the tick one space and the number of an action must follow",
    }
}

// What is wrong at the start of a line that does not begin with a digit.
fn at_start(first: u8) -> &'static str {
    match first {
        b'\n' => "the line is empty; a line has a tick, one space and an action, as in '412 3'",
        b' ' => "a space stands before the tick",
        0 => "a zero byte stands here: the log may have been damaged when the power failed",
        0xEF => "the line begins with a byte order mark; save the log as plain ASCII text",
        _ => "a line begins with a tick, in digits, as in '412 3'",
    }
}

// What is wrong with the line that begins at a place of these bytes.
fn wrong_form(bytes: &[u8], at: usize) -> &'static str {
    let count = digits(bytes, at, TICK_DIGITS + 1);
    if count == 0 {
        at_start(byte_at(bytes, at))
    } else if TICK_DIGITS < count {
        "a tick has at most ten digits"
    } else if (MOST_TICK as usize) < spelled(bytes, at, TICK_DIGITS) {
        "the tick is above 4294967295"
    } else {
        behind_tick(bytes, at.saturating_add(count))
    }
}

// A line that is not of the form. It begins at a place of these bytes.
pub fn form<R: Eprint>(rt: &R, log: &[u8], line: usize, bytes: &[u8], at: usize) {
    in_line(rt, log, line, wrong_form(bytes, at));
}

// An action that a row of a table does not allow.
#[derive(Clone, Copy)]
struct WrongAction<'a> {
    table: &'a [u8],
    row: usize,
    action: usize,
}

impl<'a> Display for WrongAction<'a> {
    fn fmt<W: Write>(&self, f: &mut Formatter<W>) -> fmt::Result {
        let WrongAction { table, row, action } = *self;
        let actions = place_table::actions(table);
        if actions <= action {
            let last = actions.saturating_sub(1);
            return write!(
                f,
                "there is no action {action}: the tower has actions 0 to {last}"
            );
        }
        let state = place_table::row_state(table, row);
        write!(
            f,
            "action {action} is not allowed in row {row}, state {state}; it allows "
        )?;
        let mut is_first = true;
        for allowed in (0..actions).filter(|action| place_table::has(table, row, *action)) {
            if !is_first {
                f.write_str(", ")?;
            }
            write!(f, "{allowed}")?;
            is_first = false;
        }
        Ok(())
    }
}

// A tick that is not the one that was due.
#[derive(Clone, Copy)]
struct WrongTick {
    tick: u64,
    due: u64,
}

impl Display for WrongTick {
    fn fmt<W: Write>(&self, f: &mut Formatter<W>) -> fmt::Result {
        let WrongTick { tick, due } = *self;
        if MOST_TICK < due {
            write!(
                f,
                "no line can follow: tick {due} would be due, and 4294967295 is the last there is; begin a new performance with a new log"
            )
        } else {
            write!(f, "tick {tick} where {due} was due")
        }
    }
}

// The tick of a line, if it is not the one that was due.
fn wrong_tick(place: LogPlace, stroke: Stroke) -> Option<WrongTick> {
    let due = place.due?;
    (due.0 != stroke.tick.0).then(|| WrongTick {
        tick: stroke.tick.0,
        due: due.0,
    })
}

// The first line that does not fit, with where the lines before it lead.
pub fn misfit<R: Eprint>(
    rt: &R,
    log: &[u8],
    line: usize,
    place: LogPlace,
    stroke: Stroke,
    table: &[u8],
) {
    let action = WrongAction {
        table,
        row: place.row,
        action: stroke.action,
    };
    let is_allowed = place_table::has(table, place.row, stroke.action);
    match wrong_tick(place, stroke) {
        Some(tick) if is_allowed => in_line(rt, log, line, tick),
        Some(tick) => in_line(rt, log, line, format_args!("{action}; and {tick}")),
        None if is_allowed => in_line(rt, log, line, ""),
        None => in_line(rt, log, line, action),
    }
}

// A log held against a table (02, item 2): each line in turn, along the rows of the table.
#![tactic(auto)]

ghost use Rattle.std.specs.Prelude.{◌+◌, ◌≤◌, ◌<◌, ◌≡◌, true, length};
ghost use Rattle.reading.specs.LogReading.{most_tick};
ghost use Rattle.outcome.specs.Log.{on_time, first_course};
ghost use Rattle.checker_rows.specs.RowVerdict.{RowsJudgeable};
ghost use Rattle.reading.specs.TableReading.{rows_of, laid_out, table_of};
ghost use Rattle.logic.specs.Tables.{move};
ghost use Rattle.log_course.specs.Following.{Noted, OnRow, PlaceFollowed, LineFollowed, LastEnd, LinesFollowed};

use log_lines::LogLine;
use logic::{Position, Tick};
use outcome::{Course, LogPlace, Misfit};
use reading::Stroke;

// How far a log has been followed: the position of its next line, that line's number, and what the
// lines before it come to.
#[derive(Clone, Copy)]
pub struct Followed {
    pub next: usize,
    pub line: Position,
    pub course: Course,
}

// The most actions, and the room for the moves of all rows.
const ACTIONS: usize = 16;

pub const MOVES: usize = 16000;

// Where an action leads from a row. A log comes by the same moves again and again, so a move that was
// looked up is noted in `known`: the target row and 1 more; 0 is none yet.
fn step_known(table: &[u8], known: &mut [u16], row: usize, action: usize) -> Option<usize>
    requires table_value { laid_out table.now ≡ true }
    requires row_bound { row < rows_of table.now }
    requires noted { Noted table.now known.old }
    ensures value { result ≡ move (table_of table.now) row action }
    ensures noted_2 { Noted table.now known.new }
{
    if ACTIONS <= action {
        return file_table::step_to(table, row, action);
    }
    let at = ACTIONS * row + action;
    let noted = known[at] as usize;
    if 0 < noted {
        return Some(noted - 1);
    }
    let next = file_table::step_to(table, row, action)?;
    known[at] = (next + 1) as u16;
    Some(next)
}

// At first: row 0, and any tick.
pub fn first() -> Course
    ensures { result ≡ first_course }
{
    Ok(LogPlace { row: 0, due: None })
}

// The tick is the one that is due.
fn on_time(due: Option<Tick>, tick: Tick) -> bool
    ensures { result ≡ on_time due tick }
{
    match due {
        None => true,
        Some(wanted) => wanted == tick,
    }
}

// What a line makes of where the lines before it lead, where its action leads to this target.
fn follow_place(
    tower: &[u8],
    table: &[u8],
    target: Option<usize>,
    line: Position,
    place: LogPlace,
    stroke: Stroke,
) -> Course
    requires rows_judgeable { RowsJudgeable tower.now table.now }
    requires target_value { target ≡ move (table_of table.now) place.row stroke.action }
    requires row_bound { place.row < rows_of table.now }
    requires tick_le_most_tick { stroke.tick.0 ≤ most_tick }
    ensures { PlaceFollowed result tower.now table.now line place stroke }
{
    let row = place.row;
    let action = stroke.action;
    let tick = stroke.tick;
    let due = place.due;
    let Some(next) = target else {
        return Err(Misfit {
            line,
            place,
            stroke,
        });
    };
    if !on_time(due, tick) {
        return Err(Misfit {
            line,
            place,
            stroke,
        });
    }
    let length = file_tower::step_length(tower, file_table::row_state(table, row), action);
    Ok(LogPlace {
        row: next,
        due: Some(Tick(tick.0 + length.0)),
    })
}

// One line more. The first that does not fit stays the one.
fn follow_line(
    tower: &[u8],
    table: &[u8],
    known: &mut [u16],
    line: Position,
    course: Course,
    stroke: Stroke,
) -> Course
    requires rows_judgeable { RowsJudgeable tower.now table.now }
    requires noted { Noted table.now known.old }
    requires on_row { OnRow table.now course }
    requires tick_le_most_tick { stroke.tick.0 ≤ most_tick }
    ensures line_followed { LineFollowed result tower.now table.now line course stroke }
    ensures noted_2 { Noted table.now known.new }
{
    let place = course?;
    let target = step_known(table, known, place.row, stroke.action);
    follow_place(tower, table, target, line, place, stroke)
}

// The end of the last line that is ended: the position behind the last byte 10, or 0. Before it byte 10 is
// ahead, so that reading a line stops inside the log; behind it there is no line.
fn last_end(log: &[u8]) -> usize
    ensures { LastEnd result log.now }
{
    for at in (0..log.len()).rev() {
        if log[at] == b'\n' {
            return at + 1;
        }
    }
    0
}

// The lines of a log, of which these bytes may be a part, from the line with this number on: to the end
// of the bytes, or to the first line that is not of the form.
pub fn follow_lines(
    tower: &[u8],
    table: &[u8],
    log: &[u8],
    known: &mut [u16],
    first: Position,
    course: Course,
) -> Followed
    requires rows_judgeable { RowsJudgeable tower.now table.now }
    requires noted { Noted table.now known.old }
    requires on_row { OnRow table.now course }
    requires log_bound { first.0 + length log.now < 18446744073709551616 }
    ensures lines_followed { LinesFollowed result tower.now table.now log.now first course }
    ensures noted_2 { Noted table.now known.new }
{
    let end = last_end(log);
    let mut at = 0;
    let mut line = first.0;
    let mut so_far = course;
    while at < end {
        let Some(LogLine { stroke, next }) = log_lines::next_line(log, at) else {
            return Followed {
                next: at,
                line: Position(line),
                course: so_far,
            };
        };
        so_far = follow_line(tower, table, known, Position(line), so_far, stroke);
        line += 1;
        at = next;
    }
    Followed {
        next: at,
        line: Position(line),
        course: so_far,
    }
}

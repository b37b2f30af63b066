// A log that is read from its file part by part (02, item 2), so that a program needs memory for one
// part, however long the log is. What a call of the system reads is in no contract; that parts come to
// the same as the whole is proved in crates/log_course/proofs/Parts.antt.
#![tactic(auto)]

ghost use Rattle.std.specs.Prelude.{◌≤◌, ◌≡◌, length};
ghost use Rattle.checker_rows.specs.RowVerdict.{RowsJudgeable};
ghost use Rattle.log_course.specs.Following.{Noted, OnRow};
ghost use Rattle.program_log.specs.Parts.{Kept, GoesOn, InPart};

use log_course::Followed;
use logic::Position;
use outcome::Course;
use std::io::{Eprint, Read};

// The bytes of a part.
pub const PART: usize = 65536;

// The most bytes of a line: where as many are left, what is there is not a line, whatever follows.
const LINE: usize = 14;

// More lines than any log has.
const MOST_LINES: usize = 4611686018427387904;

// How reading goes on behind a part: with what is left of it at its start, not at all since the answer
// is known, or not at all since it cannot.
#[derive(Drop)]
pub enum Part {
    On {
        held: usize,
        line: Position,
        course: Course,
    },
    // The bytes of this part, and how far they were followed.
    Over {
        followed: Followed,
        bytes: usize,
    },
    TooLong,
    Failed,
}

// Moves the bytes from one place to another to the start.
fn keep(part: &mut [u8], from: usize, end: usize) -> usize
    requires from_le_end { from ≤ end }
    requires end_in_bounds { end ≤ length part.old }
    ensures { Kept result from end part.old part.new }
{
    part.copy_within(from..end, 0);
    end - from
}

// One part: read behind what is held, and followed.
fn read_part<R: Eprint, F: Read>(
    rt: &R,
    file: &mut F,
    path: &[u8],
    tower: &[u8],
    table: &[u8],
    known: &mut [u16],
    part: &mut [u8],
    held: usize,
    line: Position,
    course: Course,
) -> Part
    requires rows_judgeable { RowsJudgeable tower.now table.now }
    requires noted { Noted table.now known.old }
    requires part_len { length part.old ≡ 65536 }
    requires held_bound { held ≤ 65536 }
    requires on_row { OnRow table.now course }
    ensures noted_2 { Noted table.now known.new }
    ensures goes_on { GoesOn result table.now }
    ensures in_part { InPart result part.new }
{
    if MOST_LINES < line.0 {
        return Part::TooLong;
    }
    let Some(bytes) = program_files::fill(rt, file, path, part, held) else {
        return Part::Failed;
    };
    let followed = log_course::follow_lines(tower, table, &part[..bytes], known, line, course);
    let next = followed.next;
    if bytes < PART {
        return Part::Over { followed, bytes };
    }
    if LINE <= bytes - next {
        return Part::Over { followed, bytes };
    }
    let left = keep(part, next, bytes);
    let later = followed.line;
    let so_far = followed.course;
    Part::On {
        held: left,
        line: later,
        course: so_far,
    }
}

// All parts, with the moves that are noted on the way.
fn read_noting<R: Eprint, F: Read>(
    rt: &R,
    file: &mut F,
    path: &[u8],
    tower: &[u8],
    table: &[u8],
    known: &mut [u16],
    part: &mut [u8],
) -> Part
    requires rows_judgeable { RowsJudgeable tower.now table.now }
    requires noted { Noted table.now known.old }
    requires part_len { length part.old ≡ 65536 }
    ensures { InPart result part.new }
{
    let mut held = 0;
    let mut line = Position(0);
    let mut course = log_course::first();
    for turns in (0..u64::MAX).rev() {
        let after = read_part(
            rt, file, path, tower, table, known, part, held, line, course,
        );
        match after {
            Part::On {
                held: left,
                line: later,
                course: so_far,
            } => {
                held = left;
                line = later;
                course = so_far;
            }
            Part::Over { followed, bytes } => {
                return Part::Over { followed, bytes };
            }
            Part::TooLong => {
                return Part::TooLong;
            }
            Part::Failed => {
                return Part::Failed;
            }
        }
    }
    Part::TooLong
}

// All parts. The last one stays in the area that was lent for it.
pub fn read_parts<R: Eprint, F: Read>(
    rt: &R,
    file: &mut F,
    path: &[u8],
    tower: &[u8],
    table: &[u8],
    part: &mut [u8],
) -> Part
    requires rows_judgeable { RowsJudgeable tower.now table.now }
    requires part_len { length part.old ≡ 65536 }
    ensures { InPart result part.new }
{
    let mut known = [0u16; log_course::MOVES];
    read_noting(rt, file, path, tower, table, &mut known, part)
}

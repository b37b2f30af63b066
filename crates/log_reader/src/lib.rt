// The log reader (02, item 2): a log held against a table, in the order tower, 13, 14 a to d, 19; then
// the first line that does not fit, or the final row. It borrows no area and writes nothing.
#![tactic(auto)]

ghost use Rattle.std.specs.Prelude.{◌≡◌};
ghost use Rattle.logic.specs.Tower.{tower_of};
ghost use Rattle.reading.specs.TableReading.{table_of};
ghost use Rattle.outcome.specs.Check.{good_table};
ghost use Rattle.outcome.specs.Log.{log_after, log_answer};
ghost use Rattle.checker_rows.specs.RowVerdict.{RowsJudgeable};
ghost use Rattle.log_reader.specs.Answering.{answer_of, ReadsLog};

use base::{LogAnswer, LogEnd, Refusal, Rejection};
use log_course::Followed;
use logic::Position;

// The answer for a log of so many bytes that has been followed so far: 19 if the next line is not of
// the form, and else what its lines come to.
pub fn ended(followed: Followed, length: usize) -> LogAnswer
    ensures { result ≡ answer_of followed length }
{
    let line = followed.line;
    if followed.next < length {
        return Err(Rejection::Refused(Refusal::Log(line.0)));
    }
    match followed.course {
        Ok(place) => Ok(LogEnd::Row(place.row)),
        Err(misfit) => Ok(LogEnd::Line(misfit.line.0)),
    }
}

// The log, where tower and table are sound.
fn read_lines(tower: &[u8], table: &[u8], log: &[u8]) -> LogAnswer
    requires { RowsJudgeable tower.now table.now }
    ensures { result ≡ log_answer (log_after (tower_of tower.now) (table_of table.now) log.now good_table) }
{
    let mut known = [0u16; log_course::MOVES];
    let first = log_course::first();
    let followed = log_course::follow_lines(tower, table, log, &mut known, Position(0), first);
    ended(followed, log.len())
}

// The final row, the first line whose action is not allowed or whose tick is not the one that is due,
// or why the log was not read.
pub fn read_log(tower: &[u8], table: &[u8], log: &[u8]) -> LogAnswer
    ensures { ReadsLog result tower.now table.now log.now }
{
    checker_files::test_files(tower, table)?;
    read_lines(tower, table, log)
}

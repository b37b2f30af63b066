// read_log [TOWER TABLE LOG]: holds a stroke log against a table and prints `row` and the final row,
// `line` and the number of the first line that does not fit, or `refused` with number and place, and
// the reason's letter inside a 14 (docs/PROGRAMS.md). Without names they are tower.bin, table.bin and
// log.txt.
#![tactic(auto)]

ghost use Rattle.checker_rows.specs.RowVerdict.{RowsJudgeable};

use base::{LogAnswer, Rejection};
use log_course::Followed;
use program_log::Part;
use std::env::Env;
use std::fs::Files;
use std::io::{Eprint, Print, Read};

// Prints the answer.
fn print<R: Print + Eprint>(rt: &R, answer: LogAnswer) -> bool {
    let mut line = [0u8; 4096];
    let n = program_listing::log_answer(answer, &mut line);
    program_files::print(rt, &line[..n])
}

// Says what is wrong with the log, if anything is. `bytes` are those of the part that was read last.
fn explain<R: Eprint>(rt: &R, followed: Followed, log: &[u8], bytes: &[u8], table_bytes: &[u8]) {
    let next = followed.next;
    let line = followed.line;
    if next < bytes.len() {
        words_log::form(rt, log, line.0, bytes, next);
        return;
    }
    if let Err(misfit) = followed.course {
        words_log::misfit(
            rt,
            log,
            misfit.line.0,
            misfit.place,
            misfit.stroke,
            table_bytes,
        );
    }
}

// Prints what the log comes to, and says what is wrong with it.
fn tell<R: Print + Eprint>(
    rt: &R,
    followed: Followed,
    log: &[u8],
    bytes: &[u8],
    table_bytes: &[u8],
) {
    if print(rt, log_reader::ended(followed, bytes.len())) {
        explain(rt, followed, log, bytes, table_bytes);
    }
}

// Reads the log that is open, part by part, and tells what it comes to.
fn read_open<R: Print + Eprint, F: Read>(
    rt: &R,
    file: &mut F,
    log: &[u8],
    tower: &[u8],
    table: &[u8],
)
    requires { RowsJudgeable tower.now table.now }
{
    let mut part = [0u8; program_log::PART];
    match program_log::read_parts(rt, file, log, tower, table, &mut part) {
        Part::Over { followed, bytes } => {
            tell(rt, followed, log, &part[..bytes], table);
        }
        Part::Failed => {}
        _ => {
            program_saying::in_file(
                rt,
                log,
                "the log has more lines than can be counted; nothing was answered",
            );
        }
    }
}

// Tests tower and table, and reads the log that is open.
fn read_from<R: Print + Eprint, F: Read>(
    rt: &R,
    file: &mut F,
    tower: &[u8],
    table: &[u8],
    log: &[u8],
    tower_bytes: &[u8],
    table_bytes: &[u8],
) {
    match checker_files::test_files(tower_bytes, table_bytes) {
        Ok(()) => read_open(rt, file, log, tower_bytes, table_bytes),
        Err(Rejection::NotGood(reason)) => words_refusal::not_good(
            rt,
            reason,
            table,
            tower_bytes,
            table_bytes,
        ),
        Err(Rejection::Refused(why)) => words_refusal::refuse(
            rt,
            why,
            tower,
            b"",
            table,
            tower_bytes,
            b"",
            table_bytes,
        ),
    }
}

// Opens the log first, so that a log that cannot be read is told before anything is answered.
fn run_read<R: Files + Print + Eprint>(
    rt: &R,
    tower: &[u8],
    table: &[u8],
    log: &[u8],
    tower_bytes: &[u8],
    table_bytes: &[u8],
) {
    let Some(mut file) = program_files::open(rt, log) else {
        return;
    };
    read_from(rt, &mut file, tower, table, log, tower_bytes, table_bytes);
}

// Reads tower and table. In each area there is room for one byte more than the longest file that is
// fit, so that a longer one is refused for its length.
fn run<R: Files + Print + Eprint>(rt: &R, tower: &[u8], table: &[u8], log: &[u8]) {
    let mut tower_area = [0u8; program_limits::TOWER];
    let Some(tower_bytes) = program_files::read_file(rt, tower, &mut tower_area) else {
        return;
    };
    let mut table_area = [0u8; program_limits::TABLE];
    let Some(table_bytes) = program_files::read_file(rt, table, &mut table_area) else {
        return;
    };
    run_read(rt, tower, table, log, tower_bytes, table_bytes);
}

// The names are the arguments.
fn run_named<R: Env + Files + Print + Eprint>(rt: &R) {
    let mut tower_area = [0u8; 4096];
    let Some(tower) = program_files::argument(rt, 1, b"TOWER", &mut tower_area) else {
        return;
    };
    let mut table_area = [0u8; 4096];
    let Some(table) = program_files::argument(rt, 2, b"TABLE", &mut table_area) else {
        return;
    };
    let mut log_area = [0u8; 4096];
    let Some(log) = program_files::argument(rt, 3, b"LOG", &mut log_area) else {
        return;
    };
    run(rt, tower, table, log);
}

fn main(rt: HostRuntime) {
    let count = program_files::argument_count(&rt);
    if count == 1 {
        run(&rt, b"tower.bin", b"table.bin", b"log.txt");
        return;
    }
    if count == 4 {
        run_named(&rt);
        return;
    }
    program_saying::say(&rt, "usage: read_log [TOWER TABLE LOG]\n");
}

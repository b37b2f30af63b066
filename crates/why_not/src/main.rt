// why_not [TOWER BOOK TABLE]: for a table that is turned down with 14 e prints `broken`, the line of the
// book that a run breaks, the position and the run's length, and then for each of its actions the
// position, the time, the state and the action; any other answer as check_table does
// (docs/PROGRAMS.md). Without names they are tower.bin, book.txt and table.bin.
#![tactic(auto)]

ghost use Rattle.std.specs.Prelude.{◌<◌};
ghost use Rattle.program_run.specs.Walking.{RunInList, OnRun};
ghost use Rattle.why_not.specs.Files.{ShownFiles};

use base::{Rejection, WhyAnswer};
use logic::Position;
use program_run::Point;
use std::env::Env;
use std::fs::Files;
use std::io::{Eprint, Print};

// The most actions of a run that is shown.
const LONGEST_RUN: usize = 1000;

// Prints the first line.
fn print_head<R: Print + Eprint>(rt: &R, line: usize, place: Position, n: usize) -> bool {
    let mut out = [0u8; 4096];
    let size = program_run::head(line, place, n, &mut out);
    program_files::print(rt, &out[..size])
}

// Prints the line of an action.
fn print_step<R: Print + Eprint>(rt: &R, tower: &[u8], run: &[u8], n: usize, point: Point) -> bool
    requires run_in_list { RunInList tower.now run.now n }
    requires on_run { OnRun point tower.now run.now n point.position }
    requires position_lt_n { point.position.0 < n }
{
    let mut out = [0u8; 4096];
    let size = program_run::step(tower, run, n, point, &mut out);
    program_files::print(rt, &out[..size])
}

// Prints the lines of the actions one after the other.
fn print_steps<R: Print + Eprint>(rt: &R, tower: &[u8], run: &[u8], n: usize) -> bool
    requires { RunInList tower.now run.now n }
{
    let mut point = program_run::first(tower, run, n);
    while point.position.0 < n {
        if !print_step(rt, tower, run, n, point) {
            return false;
        }
        point = program_run::next(tower, run, n, point);
    }
    true
}

// Prints the run of n actions, with the line that it breaks and the position.
fn print_run<R: Print + Eprint>(
    rt: &R,
    tower: &[u8],
    run: &[u8],
    n: usize,
    line: usize,
    place: Position,
) -> bool
    requires { RunInList tower.now run.now n }
{
    if !print_head(rt, line, place, n) {
        return false;
    }
    print_steps(rt, tower, run, n)
}

// The same, and in words.
fn tell_run<R: Print + Eprint>(
    rt: &R,
    book: &[u8],
    table: &[u8],
    tower_bytes: &[u8],
    text: &[u8],
    run: &[u8],
    n: usize,
    line: usize,
    place: Position,
)
    requires { RunInList tower_bytes.now run.now n }
{
    if print_run(rt, tower_bytes, run, n, line, place) {
        words_run::show(rt, table, book, tower_bytes, text, run, n, line, place);
    }
}

// Prints the answer.
fn tell<R: Print + Eprint>(
    rt: &R,
    answer: WhyAnswer,
    tower: &[u8],
    book: &[u8],
    table: &[u8],
    tower_bytes: &[u8],
    text: &[u8],
    table_bytes: &[u8],
    list: &[u8],
)
    requires { ShownFiles answer tower_bytes.now text.now table_bytes.now list.now }
{
    match answer {
        Ok(Some(shown)) => {
            tell_run(
                rt,
                book,
                table,
                tower_bytes,
                text,
                list,
                shown.length,
                shown.line,
                Position(shown.position),
            );
        }
        Ok(None) => {
            program_files::print(rt, b"good\n");
        }
        Err(Rejection::NotGood(reason)) => {
            words_refusal::not_good(rt, reason, table, tower_bytes, table_bytes);
        }
        Err(Rejection::Refused(why)) => {
            words_refusal::refuse(rt, why, tower, book, table, tower_bytes, text, table_bytes);
        }
    }
}

// The answer of the definition. The work areas (docs/WORK-AREAS.md) and the list are long enough: 15 and
// 16 never come.
fn show(tower: &[u8], text: &[u8], table: &[u8], list: &mut [u8; LONGEST_RUN]) -> WhyAnswer
    ensures { ShownFiles result tower.now text.now table.now list.new }
{
    let mut nodes = [0u8; 512];
    let mut pairs = [0u8; 64968];
    let mut index = [0u8; 8192];
    let mut graph = [0u8; 34000];
    let mut sets = [0u8; 59520];
    let mut room = [0u8; 30752];
    why::show(
        tower, text, table, list, &mut nodes, &mut pairs, &mut index, &mut graph, &mut sets,
        &mut room,
    )
}

// Finds the answer with a list that is lent, and prints it.
fn show_with<R: Print + Eprint>(
    rt: &R,
    tower: &[u8],
    book: &[u8],
    table: &[u8],
    tower_bytes: &[u8],
    text: &[u8],
    table_bytes: &[u8],
    list: &mut [u8; LONGEST_RUN],
) {
    let answer = show(tower_bytes, text, table_bytes, list);
    tell(
        rt,
        answer,
        tower,
        book,
        table,
        tower_bytes,
        text,
        table_bytes,
        list,
    );
}

// Reads the table. In each area there is room for one byte more than the longest file that is fit, so
// that a longer one is refused for its length.
fn show_from<R: Files + Print + Eprint>(
    rt: &R,
    tower_bytes: &[u8],
    text: &[u8],
    tower: &[u8],
    book: &[u8],
    table: &[u8],
) {
    let mut table_area = [0u8; program_limits::TABLE];
    let Some(table_bytes) = program_files::read_file(rt, table, &mut table_area) else {
        return;
    };
    let mut list = [0u8; LONGEST_RUN];
    show_with(
        rt,
        tower,
        book,
        table,
        tower_bytes,
        text,
        table_bytes,
        &mut list,
    );
}

// Reads the tower and the book first.
fn run<R: Files + Print + Eprint>(rt: &R, tower: &[u8], book: &[u8], table: &[u8]) {
    let mut tower_area = [0u8; program_limits::TOWER];
    let Some(tower_bytes) = program_files::read_file(rt, tower, &mut tower_area) else {
        return;
    };
    let mut text_area = [0u8; program_limits::BOOK];
    let Some(text) = program_files::read_file(rt, book, &mut text_area) else {
        return;
    };
    show_from(rt, tower_bytes, text, tower, book, table);
}

// The names are the arguments.
fn run_named<R: Env + Files + Print + Eprint>(rt: &R) {
    let mut tower_area = [0u8; 4096];
    let Some(tower) = program_files::argument(rt, 1, b"TOWER", &mut tower_area) else {
        return;
    };
    let mut book_area = [0u8; 4096];
    let Some(book) = program_files::argument(rt, 2, b"BOOK", &mut book_area) else {
        return;
    };
    let mut table_area = [0u8; 4096];
    let Some(table) = program_files::argument(rt, 3, b"TABLE", &mut table_area) else {
        return;
    };
    run(rt, tower, book, table);
}

fn main(rt: HostRuntime) {
    let count = program_files::argument_count(&rt);
    if count == 1 {
        run(&rt, b"tower.bin", b"book.txt", b"table.bin");
        return;
    }
    if count == 4 {
        run_named(&rt);
        return;
    }
    program_saying::say(&rt, "usage: why_not [TOWER BOOK TABLE]\n");
}

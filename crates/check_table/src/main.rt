// check_table [TOWER BOOK TABLE]: prints `good`, or `refused` with number and place, and the reason's
// letter inside a 14 (docs/PROGRAMS.md). Without names they are tower.bin, book.txt and table.bin.
#![tactic(auto)]

ghost use Rattle.std.specs.Prelude.{◌≡◌};
ghost use Rattle.outcome.specs.Check.{verdict, checked_file};

use base::{Rejection, Verdict};
use std::env::Env;
use std::fs::Files;
use std::io::{Eprint, Print};

// Prints the answer.
fn tell<R: Print + Eprint>(
    rt: &R,
    answer: Verdict,
    tower: &[u8],
    book: &[u8],
    table: &[u8],
    tower_bytes: &[u8],
    text: &[u8],
    table_bytes: &[u8],
) {
    match answer {
        Ok(()) => {
            program_files::print(rt, b"good\n");
        }
        Err(Rejection::NotGood(reason)) => {
            words_refusal::not_good(rt, reason, table, tower_bytes, table_bytes);
        }
        Err(Rejection::Refused(why)) => {
            words_refusal::refuse(rt, why, tower, book, table, tower_bytes, text, table_bytes);
        }
    }
}

// The answer of the definition. The work areas are long enough (docs/WORK-AREAS.md): 15 never comes.
fn check(tower: &[u8], text: &[u8], table: &[u8]) -> Verdict
    ensures { result ≡ verdict (checked_file tower.now text.now table.now) }
{
    let mut nodes = [0u8; 512];
    let mut pairs = [0u8; 64968];
    let mut index = [0u8; 8192];
    let mut graph = [0u8; 34000];
    let mut sets = [0u8; 59520];
    let mut room = [0u8; 30752];
    checker::check(
        tower, text, table, &mut nodes, &mut pairs, &mut index, &mut graph, &mut sets, &mut room,
    )
}

// Reads the table and checks it. In each area there is room for one byte more than the longest file
// that is fit, so that a longer one is refused for its length.
fn check_from<R: Files + Print + Eprint>(
    rt: &R,
    tower_bytes: &[u8],
    text: &[u8],
    tower: &[u8],
    book: &[u8],
    table: &[u8],
) {
    let mut table_area = [0u8; program_limits::TABLE];
    let Some(bytes) = program_files::read_file(rt, table, &mut table_area) else {
        return;
    };
    let answer = check(tower_bytes, text, bytes);
    tell(rt, answer, tower, book, table, tower_bytes, text, bytes);
}

// Reads the tower and the book first.
fn run<R: Files + Print + Eprint>(rt: &R, tower: &[u8], book: &[u8], table: &[u8]) {
    let mut tower_area = [0u8; program_limits::TOWER];
    let Some(tower_bytes) = program_files::read_file(rt, tower, &mut tower_area) else {
        return;
    };
    let mut text_area = [0u8; program_limits::BOOK];
    let Some(text) = program_files::read_file(rt, book, &mut text_area) else {
        return;
    };
    check_from(rt, tower_bytes, text, tower, book, table);
}

// The names are the arguments.
fn run_named<R: Env + Files + Print + Eprint>(rt: &R) {
    let mut tower_area = [0u8; 4096];
    let Some(tower) = program_files::argument(rt, 1, b"TOWER", &mut tower_area) else {
        return;
    };
    let mut book_area = [0u8; 4096];
    let Some(book) = program_files::argument(rt, 2, b"BOOK", &mut book_area) else {
        return;
    };
    let mut table_area = [0u8; 4096];
    let Some(table) = program_files::argument(rt, 3, b"TABLE", &mut table_area) else {
        return;
    };
    run(rt, tower, book, table);
}

fn main(rt: HostRuntime) {
    let count = program_files::argument_count(&rt);
    if count == 1 {
        run(&rt, b"tower.bin", b"book.txt", b"table.bin");
        return;
    }
    if count == 4 {
        run_named(&rt);
        return;
    }
    program_saying::say(&rt, "usage: check_table [TOWER BOOK TABLE]\n");
}

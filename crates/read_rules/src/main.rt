// read_rules [TOWER BOOK]: reads a rule book under the number of marks of a tower, and prints `lines L
// nodes N`, or `refused` with number and place (docs/PROGRAMS.md). Without names they are tower.bin
// and book.txt.
#![tactic(auto)]

ghost use Rattle.std.specs.Prelude.{◌≡◌};
ghost use Rattle.read_rules.specs.Rules.{rules_answer};

use base::BookAnswer;
use std::env::Env;
use std::fs::Files;
use std::io::{Eprint, Print};

// Prints the answer.
fn tell<R: Print + Eprint>(
    rt: &R,
    answer: BookAnswer,
    tower: &[u8],
    book: &[u8],
    tower_bytes: &[u8],
    text: &[u8],
) {
    match answer {
        Ok(size) => {
            let mut line = [0u8; 4096];
            let n = program_listing::sizes(size.lines, size.nodes, &mut line);
            if program_files::print(rt, &line[..n]) {
                words_notes::left_out(rt, book, text, size.lines);
            }
        }
        Err(why) => {
            words_refusal::refuse(rt, why, tower, book, b"", tower_bytes, text, b"");
        }
    }
}

// The answer: the tower's refusal, or the book's answer under its marks. The work area is long enough
// (docs/WORK-AREAS.md): 15 never comes.
fn read(tower: &[u8], text: &[u8]) -> BookAnswer
    ensures { result ≡ rules_answer tower.now text.now }
{
    file_tower::read_tower(tower)?;
    let mut nodes = [0u8; 512];
    book_reader::read_book(file_tower::marks(tower), text, &mut nodes)
}

// Answers for what the files hold.
fn answer<R: Print + Eprint>(rt: &R, tower: &[u8], book: &[u8], tower_bytes: &[u8], text: &[u8]) {
    let read = read(tower_bytes, text);
    tell(rt, read, tower, book, tower_bytes, text);
}

// Reads the files. Each area has room for one byte more than the longest file that is fit, so that a
// longer one is refused for its length.
fn run<R: Files + Print + Eprint>(rt: &R, tower: &[u8], book: &[u8]) {
    let mut tower_area = [0u8; program_limits::TOWER];
    let Some(tower_bytes) = program_files::read_file(rt, tower, &mut tower_area) else {
        return;
    };
    let mut text_area = [0u8; program_limits::BOOK];
    let Some(text) = program_files::read_file(rt, book, &mut text_area) else {
        return;
    };
    answer(rt, tower, book, tower_bytes, text);
}

// The names are the arguments.
fn run_named<R: Env + Files + Print + Eprint>(rt: &R) {
    let mut tower_area = [0u8; 4096];
    let Some(tower) = program_files::argument(rt, 1, b"TOWER", &mut tower_area) else {
        return;
    };
    let mut book_area = [0u8; 4096];
    let Some(book) = program_files::argument(rt, 2, b"BOOK", &mut book_area) else {
        return;
    };
    run(rt, tower, book);
}

fn main(rt: HostRuntime) {
    let count = program_files::argument_count(&rt);
    if count == 1 {
        run(&rt, b"tower.bin", b"book.txt");
        return;
    }
    if count == 3 {
        run_named(&rt);
        return;
    }
    program_saying::say(&rt, "usage: read_rules [TOWER BOOK]\n");
}

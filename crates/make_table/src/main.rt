// make_table [TOWER BOOK TABLE]: makes the table of a tower and a rule book, and prints its listing;
// or prints `refused` with number and place, and writes no table (docs/PROGRAMS.md). Without names
// they are tower.bin, book.txt and table.bin. With `-` for TABLE only the listing is printed.
#![tactic(auto)]

ghost use Rattle.std.specs.Prelude.{◌<◌, ◌≡◌, true};
ghost use Rattle.reading.specs.TableReading.{rows_of, laid_out};
ghost use Rattle.make_table.specs.Files.{MadeFile};

use base::{MakeAnswer, Refusal};
use std::env::Env;
use std::fs::Files;
use std::io::{Eprint, Print};
use std::random::RandomSource;

// The bytes of the longest table.
const LONGEST_TABLE: usize = 52012;

// Prints the listing's first line.
fn print_head<R: Print + Eprint>(rt: &R, table: &[u8]) -> bool
    requires { laid_out table.now ≡ true }
{
    let mut line = [0u8; 4096];
    let n = program_listing::head(file_table::rows(table), file_table::steps(table), &mut line);
    program_files::print(rt, &line[..n])
}

// Prints a row.
fn print_row<R: Print + Eprint>(rt: &R, table: &[u8], row: usize) -> bool
    requires table_value { laid_out table.now ≡ true }
    requires row_bound { row < rows_of table.now }
{
    let mut line = [0u8; 4096];
    let n = program_listing::row(table, row, &mut line);
    program_files::print(rt, &line[..n])
}

// Prints the rows one after the other.
fn print_rows<R: Print + Eprint>(rt: &R, table: &[u8]) -> bool
    requires { laid_out table.now ≡ true }
{
    let rows = file_table::rows(table);
    for row in 0..rows {
        if !print_row(rt, table, row) {
            return false;
        }
    }
    true
}

// Prints the listing of a table.
fn print_listing<R: Print + Eprint>(rt: &R, table: &[u8]) -> bool
    requires { laid_out table.now ≡ true }
{
    if !print_head(rt, table) {
        return false;
    }
    print_rows(rt, table)
}

// The answer, with work areas (docs/WORK-AREAS.md).
fn make(tower: &[u8], text: &[u8], out: &mut [u8; LONGEST_TABLE]) -> MakeAnswer
    ensures { MadeFile result tower.now text.now out.new }
{
    let mut nodes = [0u8; 512];
    let mut pairs = [0u8; 64968];
    let mut index = [0u8; 8192];
    let mut graph = [0u8; 34000];
    let mut sets = [0u8; 59520];
    let mut room = [0u8; 30752];
    let mut flags = [0u8; 37000];
    let mut classes = [0u8; 8192];
    maker::make(
        tower,
        text,
        out,
        &mut nodes,
        &mut pairs,
        &mut index,
        &mut graph,
        &mut sets,
        &mut room,
        &mut flags,
        &mut classes,
    )
}

// The name that stands for no table: the listing alone is asked for.
fn no_file(table: &[u8]) -> bool {
    if table.len() != 1 {
        return false;
    }
    table[0] == b'-'
}

// Says that no table was written, where one was to be.
fn unchanged<R: Eprint>(rt: &R, table: &[u8]) {
    if !no_file(table) {
        program_files::unchanged(rt, table);
    }
}

// Whether the table may be written under its name; says why not.
fn may_write<R: Files + Eprint>(rt: &R, tower: &[u8], book: &[u8], table: &[u8]) -> bool {
    if no_file(table) {
        return true;
    }
    program_target::allowed(rt, table, tower, book)
}

// Writes the table to its file, if it has one.
fn save<R: Files + RandomSource + Eprint>(rt: &R, table: &[u8], bytes: &[u8]) -> bool {
    if no_file(table) {
        return true;
    }
    program_files::save(rt, table, bytes)
}

// Says what is worth knowing of a table that was made: the pairs, and the actions that no row allows.
fn say_notes<R: Eprint>(rt: &R, name: &[u8], bytes: &[u8], tower_bytes: &[u8], text: &[u8]) {
    words_notes::pairs(rt, name, pair_count::pairs(tower_bytes, text));
    words_notes::unused(rt, name, bytes);
}

// The same by the name of the table, if it has one.
fn say_of<R: Eprint>(rt: &R, table: &[u8], bytes: &[u8], tower_bytes: &[u8], text: &[u8]) {
    if no_file(table) {
        say_notes(rt, b"the table", bytes, tower_bytes, text);
        return;
    }
    say_notes(rt, table, bytes, tower_bytes, text);
}

// The listing could not be printed.
fn not_printed<R: Eprint>(rt: &R, table: &[u8]) {
    if !no_file(table) {
        program_saying::in_file(
            rt,
            table,
            "the new table is in place; its listing is not printed whole",
        );
    }
}

// Writes the table to its file, then prints its listing and says what is worth knowing.
fn finish<R: Files + RandomSource + Print + Eprint>(
    rt: &R,
    bytes: &[u8],
    table: &[u8],
    tower_bytes: &[u8],
    text: &[u8],
)
    requires { laid_out bytes.now ≡ true }
{
    if !save(rt, table, bytes) {
        return;
    }
    if !print_listing(rt, bytes) {
        not_printed(rt, table);
        return;
    }
    say_of(rt, table, bytes, tower_bytes, text);
}

// No table is good for the tower under a book without a rule: a dead end of the tower itself.
fn dead_end(tower: &[u8]) -> bool {
    let mut spare = [0u8; LONGEST_TABLE];
    match make(tower, b"", &mut spare) {
        Ok(_) => false,
        Err(why) => is_no_table(why),
    }
}

// The state of a row that waits for the player alone, in the table that a tower and the rules make. `sure`
// is the tower as it would be if the player were sure to come.
fn waiting_in(
    tower: &[u8],
    sure: &[u8],
    text: &[u8],
    spare: &mut [u8; LONGEST_TABLE],
) -> Option<usize> {
    match make(sure, text, spare) {
        Ok(_) => place_table::waiting_state(tower, spare),
        Err(_) => None,
    }
}

// A state in which a table that keeps the rules would wait for the player alone.
fn waiting_state(tower: &[u8], text: &[u8]) -> Option<usize> {
    let mut sure = [0u8; program_limits::TOWER];
    let t = place_tower::sure_copy(tower, &mut sure);
    let mut spare = [0u8; LONGEST_TABLE];
    waiting_in(tower, &sure[..t], text, &mut spare)
}

// Whether a refusal is 12.
fn is_no_table(why: Refusal) -> bool {
    why == Refusal::NoTable
}

// Says why there is no good table. Where the tower alone has none, the rules are not to blame; else they
// leave only the player to go on, or cannot be kept.
fn refuse_none<R: Print + Eprint>(
    rt: &R,
    why: Refusal,
    tower: &[u8],
    book: &[u8],
    table: &[u8],
    tower_bytes: &[u8],
    text: &[u8],
) {
    if dead_end(tower_bytes) {
        words_refusal::refuse_tower(rt, why, tower, tower_bytes);
        return;
    }
    if let Some(state) = waiting_state(tower_bytes, text) {
        words_refusal::refuse_waiting(rt, why, book, state);
        return;
    }
    words_refusal::refuse(rt, why, tower, book, table, tower_bytes, text, b"");
}

// Says why the tower or the rules are refused.
fn refuse<R: Print + Eprint>(
    rt: &R,
    why: Refusal,
    tower: &[u8],
    book: &[u8],
    table: &[u8],
    tower_bytes: &[u8],
    text: &[u8],
) {
    if is_no_table(why) {
        refuse_none(rt, why, tower, book, table, tower_bytes, text);
        return;
    }
    words_refusal::refuse(rt, why, tower, book, table, tower_bytes, text, b"");
}

// Makes the table; where it is made, writes it to its file and then prints its listing.
fn make_from<R: Files + RandomSource + Print + Eprint>(
    rt: &R,
    tower_bytes: &[u8],
    text: &[u8],
    tower: &[u8],
    book: &[u8],
    table: &[u8],
) {
    let mut out = [0u8; LONGEST_TABLE];
    match make(tower_bytes, text, &mut out) {
        Ok(n) => {
            finish(rt, &out[..n], table, tower_bytes, text);
        }
        Err(why) => {
            refuse(rt, why, tower, book, table, tower_bytes, text);
            unchanged(rt, table);
        }
    }
}

// Reads the files and makes the table; false if a file cannot be read. Each area has room for one byte
// more than the longest file that is fit, so that a longer one is refused for its length.
fn run_files<R: Files + RandomSource + Print + Eprint>(
    rt: &R,
    tower: &[u8],
    book: &[u8],
    table: &[u8],
) -> bool {
    let mut tower_area = [0u8; program_limits::TOWER];
    let Some(tower_bytes) = program_files::read_file(rt, tower, &mut tower_area) else {
        return false;
    };
    let mut text_area = [0u8; program_limits::BOOK];
    let Some(text) = program_files::read_file(rt, book, &mut text_area) else {
        return false;
    };
    make_from(rt, tower_bytes, text, tower, book, table);
    true
}

// Looks first at what the table's name leads to.
fn run<R: Files + RandomSource + Print + Eprint>(rt: &R, tower: &[u8], book: &[u8], table: &[u8]) {
    if !may_write(rt, tower, book, table) {
        unchanged(rt, table);
        return;
    }
    if !run_files(rt, tower, book, table) {
        unchanged(rt, table);
    }
}

// The names are the arguments.
fn run_named<R: Env + Files + RandomSource + Print + Eprint>(rt: &R) {
    let mut tower_area = [0u8; 4096];
    let Some(tower) = program_files::argument(rt, 1, b"TOWER", &mut tower_area) else {
        return;
    };
    let mut book_area = [0u8; 4096];
    let Some(book) = program_files::argument(rt, 2, b"BOOK", &mut book_area) else {
        return;
    };
    let mut table_area = [0u8; 4096];
    let Some(table) = program_files::argument(rt, 3, b"TABLE", &mut table_area) else {
        return;
    };
    run(rt, tower, book, table);
}

fn main(rt: HostRuntime) {
    let count = program_files::argument_count(&rt);
    if count == 1 {
        run(&rt, b"tower.bin", b"book.txt", b"table.bin");
        return;
    }
    if count == 4 {
        run_named(&rt);
        return;
    }
    program_saying::say(&rt, "usage: make_table [TOWER BOOK TABLE]\n");
}

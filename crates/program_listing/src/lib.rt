// What the programs print, as bytes: the listing of a table, the sizes of a book, what a log comes to,
// and a refusal (01, 'Small-tower table'). A line is put into an array that the caller lends, from its start on,
// and every line fits. specs/Lines.antt says which bytes it has.
#![tactic(auto)]

ghost use Rattle.std.specs.Prelude.{◌≤◌, ◌<◌, ◌≡◌, true, length};
ghost use Rattle.base.specs.Answers.{rejection_said, refusal_said, reason_said};
ghost use Rattle.logic.specs.Tables.{row_at};
ghost use Rattle.reading.specs.TableReading.{rows_of, laid_out, table_of};
ghost use Rattle.program_texts.specs.Putting.{Puts, PrintedLine};
ghost use Rattle.program_listing.specs.Lines.{head_line, step_text, steps_text, row_line, sizes_line, letter_text, refusal_line, refused_line, named_line, end_line, log_line};

use base::{LogAnswer, LogEnd, Reason, Refusal, Rejection};
use program_texts::{put_byte, put_bytes, put_decimal};

// The counts of a table, the listing's first line.
pub fn head(rows: usize, steps: usize, out: &mut [u8; 4096]) -> usize
    ensures { PrintedLine result (head_line rows steps) out.new }
{
    let a = put_bytes(out, 0, b"rows ");
    let b = put_decimal(out, a, rows);
    let c = put_bytes(out, b, b" steps ");
    let d = put_decimal(out, c, steps);
    put_byte(out, d, b'\n')
}

// An action with its target row.
fn put_step(out: &mut [u8], at: usize, action: usize, target: usize) -> usize
    ensures { Puts result (step_text (record { action = action; target = target })) out.old at out.new }
{
    let a = put_byte(out, at, b' ');
    let b = put_decimal(out, a, action);
    let c = put_byte(out, b, b'>');
    put_decimal(out, c, target)
}

// The steps of a row.
fn put_steps(table: &[u8], row: usize, out: &mut [u8], at: usize) -> usize
    requires table_value { laid_out table.now ≡ true }
    requires row_bound { row < rows_of table.now }
    ensures { Puts result (steps_text (row_at (table_of table.now) row).steps) out.old at out.new }
{
    let mut next = at;
    let first = file_table::row_first(table, row);
    let end = first + file_table::row_count(table, row);
    for i in first..end {
        let action = file_table::step_action(table, i);
        let target = file_table::step_target(table, i);
        next = put_step(out, next, action, target);
    }
    next
}

// A row of a table: its number, its state, and each action with its target row.
pub fn row(table: &[u8], row: usize, out: &mut [u8; 4096]) -> usize
    requires table_value { laid_out table.now ≡ true }
    requires row_bound { row < rows_of table.now }
    ensures { PrintedLine result (row_line row (row_at (table_of table.now) row)) out.new }
{
    let a = put_decimal(out, 0, row);
    let b = put_byte(out, a, b' ');
    let c = put_decimal(out, b, file_table::row_state(table, row));
    let d = put_steps(table, row, out, c);
    put_byte(out, d, b'\n')
}

// The numbers of a book's lines and nodes.
pub fn sizes(lines: usize, nodes: usize, out: &mut [u8; 4096]) -> usize
    ensures { PrintedLine result (sizes_line lines nodes) out.new }
{
    let a = put_bytes(out, 0, b"lines ");
    let b = put_decimal(out, a, lines);
    let c = put_bytes(out, b, b" nodes ");
    let d = put_decimal(out, c, nodes);
    put_byte(out, d, b'\n')
}

// A refusal: its number and place.
pub fn refusal(why: Refusal, out: &mut [u8; 4096]) -> usize
    ensures { PrintedLine result (refusal_line (refusal_said why)) out.new }
{
    let number = refusal_numbers::number(why);
    let place = refusal_numbers::place(why);
    refused(number as usize, place, 0, out)
}

// 14, with the reason's row and letter.
pub fn not_good(reason: Reason, out: &mut [u8; 4096]) -> usize
    ensures { PrintedLine result (refusal_line (reason_said reason)) out.new }
{
    let place = refusal_numbers::row(reason);
    let letter = refusal_numbers::letter(reason);
    refused(refusal_numbers::NOT_GOOD as usize, place, letter, out)
}

// The same by its numbers; 0 is no letter.
fn refused(number: usize, place: usize, letter: u8, out: &mut [u8; 4096]) -> usize
    ensures { PrintedLine result (refused_line number place letter) out.new }
{
    let a = put_bytes(out, 0, b"refused ");
    let b = put_decimal(out, a, number);
    let c = put_byte(out, b, b' ');
    let d = put_decimal(out, c, place);
    let e = put_letter(out, d, letter);
    put_byte(out, e, b'\n')
}

// The letter inside a 14, behind a space; 0 is none.
fn put_letter(out: &mut [u8], at: usize, letter: u8) -> usize
    ensures { Puts result (letter_text letter) out.old at out.new }
{
    if letter == 0 {
        return at;
    }
    let a = put_byte(out, at, b' ');
    put_byte(out, a, letter)
}

// A word and a number.
fn named(word: &[u8], n: usize, out: &mut [u8; 4096]) -> usize
    requires { length word.now ≤ 8 }
    ensures { PrintedLine result (named_line word.now n) out.new }
{
    let a = put_bytes(out, 0, word);
    let b = put_decimal(out, a, n);
    put_byte(out, b, b'\n')
}

// Why a table is rejected.
fn rejection(why: Rejection, out: &mut [u8; 4096]) -> usize
    ensures { PrintedLine result (refusal_line (rejection_said why)) out.new }
{
    match why {
        Rejection::NotGood(reason) => not_good(reason, out),
        Rejection::Refused(refused) => refusal(refused, out),
    }
}

// What a log comes to: the final row, or the first line that does not fit.
fn log_end(end: LogEnd, out: &mut [u8; 4096]) -> usize
    ensures { PrintedLine result (end_line end) out.new }
{
    match end {
        LogEnd::Row(row) => named(b"row ", row, out),
        LogEnd::Line(line) => named(b"line ", line, out),
    }
}

// The same, or why the log was not read.
pub fn log_answer(answer: LogAnswer, out: &mut [u8; 4096]) -> usize
    ensures { PrintedLine result (log_line answer) out.new }
{
    match answer {
        Ok(end) => log_end(end, out),
        Err(why) => rejection(why, out),
    }
}

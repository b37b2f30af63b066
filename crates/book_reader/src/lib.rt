// The book reader (01, 'Rule book' and 'Why a call is turned down'): lines, limits, and the book of a text or why there is none.
#![tactic(auto)]

ghost use Rattle.std.specs.Prelude.{◌≡◌, ◌+◌, ◌≤◌, ◌<◌, length, []};
ghost use Rattle.reading.specs.BookReading as Reading;
ghost use Rattle.outcome.specs.ReadBook.{book_answer, book_under};
ghost use Rattle.book_nodes.specs.State as State;
ghost use Rattle.book_reader.specs.Lines as Lines;

use base::{BookAnswer, BookSize, Refusal};

// 01, 'Why a call is turned down': the most marks, bytes and nodes.
const MOST_MARKS: usize = 16;

const MOST_BYTES: usize = 4096;

const MOST_NODES: u8 = 60;

// The length of the lent area (docs/WORK-AREAS.md).
const BOOK_AREA: usize = 512;

// Nothing is at fault.
const NO_FAULT: u8 = 255;

// A number left out after A, E or U.
const USUAL_BOUND: u8 = 20;

// The codes of a line's form (reading/specs/BookArea).
const START: u8 = 0;

const ALWAYS: u8 = 1;

// A line that was read: the code of its form, and the position after its byte 10.
#[derive(Clone, Copy)]
pub struct Line {
    pub form: u8,
    pub next: usize,
}

// The line at a position, of one of the forms that a book may have.
fn read_line(s: &[u8], at: usize, area: &mut [u8]) -> Option<Line>
    requires { (512 ≤ length area.old) × ((length s.now ≤ 4096) × (at ≤ length s.now)) }
    ensures { Lines.LineRead (Reading.line_at (State.usual_in area.old) s.now at) area.old area.new result }
{
    let rest = &s[at..];
    if rest.starts_with(b"always ") {
        return line_rest(s, at + 6, ALWAYS, area);
    }
    if rest.starts_with(b"start ") {
        return line_rest(s, at + 5, START, area);
    }
    None
}

// The formula behind the word of a line's form, and the end of the line.
fn line_rest(s: &[u8], at: usize, form: u8, area: &mut [u8]) -> Option<Line>
    requires { 512 ≤ length area.old }
    ensures { Lines.RestRead result s.now at form area.old area.new }
{
    let next = book_formula::formula(s, book_tokens::skip(s, at), area)?;
    if text_numerals::byte_at(s, next) != b'\n' {
        return None;
    }
    Some(Line {
        form,
        next: next + 1,
    })
}

// What is at fault in the line read last, its number as place; or the position after it.
fn judge(line: usize, next: usize, area: &[u8]) -> Result<usize, Refusal>
    requires { 512 ≤ length area.now }
    ensures { result ≡ Lines.judged line next (State.state_of area.now) }
{
    let fault = area[book_nodes::FAULT];
    if fault == book_nodes::NUMBER_FAULT {
        return Err(Refusal::Number(line));
    }
    if fault == book_nodes::MARK_FAULT {
        return Err(Refusal::Mark(line));
    }
    if MOST_NODES < area[book_nodes::NODE_COUNT] {
        return Err(Refusal::Limit(line));
    }
    if fault == book_nodes::LIMIT_FAULT {
        return Err(Refusal::Limit(line));
    }
    if fault == book_nodes::TIMED_FAULT {
        return Err(Refusal::Timed(line));
    }
    Ok(next)
}

// Puts down a line of this form and number, whose formula is the node read last.
fn put_line(area: &mut [u8], line: usize, form: u8)
    requires { (512 ≤ length area.old) × (line ≤ 60) }
    ensures { Lines.PutsLine line form area.old area.new }
{
    let root = book_nodes::last_node(area);
    let timed = book_nodes::is_timed(area);
    let at = book_nodes::LINES_AT + book_nodes::LINE_SIZE * line;
    area[at] = form;
    area[at + 1] = root;
    area[at + 2] = line as u8;
    area[at + 3] = timed;
}

// The next line, read and judged, and put down where nothing is at fault; the position after it.
fn one_line(s: &[u8], at: usize, line: usize, area: &mut [u8]) -> Result<usize, Refusal>
    requires { (512 ≤ length area.old) × ((length s.now ≤ 4096) × ((at ≤ length s.now) × (line ≤ 60))) }
    ensures { Lines.Turns result s.now at line area.old area.new }
{
    let read = read_line(s, at, area).ok_or(Refusal::Grammar(line))?;
    let after = judge(line, read.next, area)?;
    put_line(area, line, read.form);
    Ok(after)
}

// The reader's own bytes before the first line.
fn start(marks: usize, area: &mut [u8])
    requires { (512 ≤ length area.old) × (marks ≤ 16) }
    ensures { Lines.HeldSoFar marks [] 0 area.new }
{
    area[book_nodes::NODE_COUNT] = 0;
    area[book_nodes::FAULT] = NO_FAULT;
    area[book_nodes::MARKS] = marks as u8;
    area[book_nodes::USUAL] = USUAL_BOUND;
}

// Reads a book under P marks into a lent area: nodes, lines and the numbers of both (reading/specs/BookArea).
pub fn read_lines(marks: usize, text: &[u8], area: &mut [u8]) -> BookAnswer
    requires { (512 ≤ length area.old) × (marks ≤ 16) }
    ensures { Lines.Answers result marks text.now area.new }
{
    if MOST_BYTES < text.len() {
        return Err(Refusal::Limit(0));
    }
    start(marks, area);
    all_lines(marks, text, area)
}

// The lines one after the other, to the end of the text.
fn all_lines(marks: usize, text: &[u8], area: &mut [u8]) -> BookAnswer
    requires { (512 ≤ length area.old) × ((marks ≤ 16) × ((length text.now ≤ 4096) × Lines.HeldSoFar marks [] 0 area.old)) }
    ensures { Lines.Answers result marks text.now area.new }
{
    let mut lines = 0;
    let mut at = 0;
    while at < text.len() {
        at = one_line(text, at, lines, area)?;
        lines += 1;
    }
    area[book_nodes::LINE_COUNT] = lines as u8;
    Ok(BookSize {
        lines,
        nodes: usize::from(area[book_nodes::NODE_COUNT]),
    })
}

// Reads a rule book under P marks: the numbers of its lines and nodes, or why it is turned down, in the order 15, 2, the book.
// Refused with 15 it changes nothing; else the lent area is all zero afterwards.
pub fn read_book(marks: usize, text: &[u8], area: &mut [u8]) -> BookAnswer
    ensures { Lines.Outcome result marks text.now area.old area.new }
{
    if area.len() < BOOK_AREA {
        return Err(Refusal::Area);
    }
    let answer = read_under(marks, text, area);
    area_bytes::clear(area);
    answer
}

// The book under P marks; P above 16 is 2, before the book.
fn read_under(marks: usize, text: &[u8], area: &mut [u8]) -> BookAnswer
    requires { 512 ≤ length area.old }
    ensures { result ≡ book_answer (book_under marks text.now) }
{
    if MOST_MARKS < marks {
        return Err(Refusal::Range);
    }
    read_lines(marks, text, area)
}

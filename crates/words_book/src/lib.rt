// What is wrong with a rule book: 6 to 10.
#![tactic(auto)]

use program_saying::{Shown, in_file, say};
use std::fmt;
use std::fmt::{Display, Formatter, Write};
use std::io::Eprint;
use words_tower::Marks;

// The bytes of a line as they are shown: one that cannot be seen is a question mark.
#[derive(Clone, Copy)]
struct Plain<'a>(&'a [u8]);

impl<'a> Display for Plain<'a> {
    fn fmt<W: Write>(&self, f: &mut Formatter<W>) -> fmt::Result {
        for b in self.0 {
            f.write_char(match *b {
                b' '..=b'~' => char::from(*b),
                _ => '?',
            })?;
        }
        Ok(())
    }
}

// A line of a book: the name of the book, the number of the line, counted from 0, and its bytes.
#[derive(Clone, Copy)]
struct Line<'a> {
    book: &'a [u8],
    number: usize,
    bytes: &'a [u8],
}

impl<'a> Line<'a> {
    fn new(book: &'a [u8], text: &'a [u8], number: usize) -> Line<'a> {
        Line {
            book,
            number,
            bytes: place_lines::line(text, number),
        }
    }

    // Says what is wrong with the line.
    fn say<R: Eprint>(&self, rt: &R, words: impl Display + Drop) {
        let number = self.number.saturating_add(1);
        say(
            rt,
            format_args!("{}, line {number}: {words}\n", Shown(self.book)),
        );
    }

    // Says what is wrong at a place of the line, and shows the line with a mark below the place.
    fn say_at<R: Eprint>(&self, rt: &R, at: usize, words: impl Display + Drop) {
        let number = self.number.saturating_add(1);
        let column = at.saturating_add(1);
        say(
            rt,
            format_args!(
                "{}, line {number}, column {column}: {words}\n  {}\n  {:>column$}\n",
                Shown(self.book),
                Plain(self.bytes),
                '^'
            ),
        );
    }
}

// 6: not of the grammar.
pub fn grammar<R: Eprint>(rt: &R, book: &[u8], text: &[u8], line: usize) {
    let is_ended = place_lines::text_to(text, line).len() < text.len();
    let line = Line::new(book, text, line);
    match place_book::scan_line(line.bytes, is_ended) {
        Some(fault) => line.say_at(rt, fault.at, words_grammar::words(fault.what)),
        None => line.say(rt, "not a rule"),
    }
}

// 7: a number above 254.
pub fn number<R: Eprint>(rt: &R, book: &[u8], text: &[u8], line: usize) {
    let line = Line::new(book, text, line);
    let Some(numeral) = place_lines::large_number(line.bytes) else {
        return line.say(rt, "a number is above 254, the largest there may be");
    };
    line.say_at(
        rt,
        numeral.at,
        format_args!(
            "the number {} is above 254, the largest there may be",
            numeral.value
        ),
    );
}

// 8: a mark that the tower does not have.
pub fn mark<R: Eprint>(rt: &R, book: &[u8], text: &[u8], line: usize, marks: usize) {
    let line = Line::new(book, text, line);
    let all = Marks(marks);
    let Some(numeral) = place_lines::wrong_mark(line.bytes, marks) else {
        return line.say(rt, all);
    };
    line.say_at(
        rt,
        numeral.at,
        format_args!("there is no p{}: {all}", numeral.value),
    );
}

// 9 of a line: brackets or nodes.
fn line_limit<R: Eprint>(rt: &R, book: &[u8], text: &[u8], line: usize) {
    let nodes = place_lines::nodes(place_lines::text_to(text, line));
    let line = Line::new(book, text, line);
    let open = place_lines::deepest(line.bytes);
    if 16 < open {
        line.say(
            rt,
            format_args!("{open} brackets are open at once; there may be 16"),
        );
    } else {
        line.say(
            rt,
            format_args!(
                "up to the end of this line the book has {nodes} nodes; there may be 60 (each T, F, mark, &, |, N, A and U is one, each E two)"
            ),
        );
    }
}

// 9: the length of the book, brackets or nodes.
pub fn limit<R: Eprint>(rt: &R, book: &[u8], text: &[u8], line: usize) {
    if 4096 < text.len() {
        in_file(
            rt,
            book,
            "the book is longer than 4096 bytes, the most there may be",
        );
    } else {
        line_limit(rt, book, text, line);
    }
}

// 10: timed where it may not be.
pub fn timed<R: Eprint>(rt: &R, book: &[u8], text: &[u8], line: usize) {
    let line = Line::new(book, text, line);
    match place_timed::timed_place(line.bytes) {
        Some(at) => line.say_at(
            rt,
            at,
            "no N, A, E or U may stand here: none may stand behind E or in the second part of U",
        ),
        None => line.say(rt, "N, A, E or U stands where it may not"),
    }
}

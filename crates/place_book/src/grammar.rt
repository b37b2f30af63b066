// The place at which a line is not of the grammar: an automaton over its tokens, with the open
// brackets on a stack.
use crate::fault::{Fault, Finding, misfit};
use place_bytes::byte_at;

// What is expected.
#[derive(Clone, Copy)]
enum Expected {
    Unit,
    // An operator, a bracket or the end.
    After,
    // The comparison of N, and its number.
    Comparison,
    Number,
    // A number or a unit.
    MaybeNumber,
    // A number or the bracket of U, and that bracket.
    MaybeBound,
    Bracket,
}

// An open bracket: of a formula; of U before its comma, and behind it.
#[derive(Clone, Copy, PartialEq, Eq)]
enum Open {
    Plain,
    FirstPart,
    SecondPart,
}

// The open brackets of a line; no line that is read has more.
#[derive(Drop)]
struct Stack {
    kinds: [Open; 4096],
    open: usize,
}

impl Stack {
    // No bracket is open.
    fn new() -> Stack {
        Stack {
            kinds: [Open::Plain; 4096],
            open: 0,
        }
    }

    // One more is open, if there is room for it.
    fn push(&mut self, kind: Open) -> Option<()> {
        *self.kinds.get_mut(self.open)? = kind;
        self.open = self.open.saturating_add(1);
        Some(())
    }

    // The last one is closed, if one is open.
    fn pop(&mut self) -> Option<Open> {
        self.open = self.open.checked_sub(1)?;
        self.kinds.get(self.open).copied()
    }

    fn is_empty(&self) -> bool {
        self.open == 0
    }
}

// How far a line was read: the place, and what is expected there.
#[derive(Clone, Copy)]
struct Scan {
    at: usize,
    expected: Expected,
}

// Reading goes on so, or ends: with what was found, or with nothing to tell.
type Step = Result<Scan, Option<Fault>>;

// Reading goes on at a place.
fn on(at: usize, expected: Expected) -> Step {
    Ok(Scan { at, expected })
}

// Something was found.
fn found(at: usize, what: Finding) -> Step {
    Err(Some(Fault { at, what }))
}

// A byte fits nowhere, or else the place is in want of something.
fn wanted(line: &[u8], at: usize, want: Finding) -> Step {
    Err(Some(misfit(line, at, want)))
}

// The next place.
fn next(at: usize) -> usize {
    at.saturating_add(1)
}

// Where a unit is expected, what is wrong with another byte.
fn no_unit(line: &[u8], at: usize) -> Step {
    let before = byte_at(line, at.saturating_sub(1));
    match byte_at(line, at) {
        b't' | b'f' | b'n' | b'a' | b'e' | b'u' => found(at, Finding::SmallLetter),
        b'P' => found(at, Finding::CapitalMark),
        b'0'..=b'9' if before.is_ascii_digit() => found(at, Finding::LongNumber),
        b'&' if before == b'&' => found(at, Finding::Twice),
        b'|' if before == b'|' => found(at, Finding::Twice),
        _ => wanted(line, at, Finding::NoUnit),
    }
}

// The place behind the digits from a place on, so many of them at most.
fn behind_digits(line: &[u8], at: usize, most: usize) -> usize {
    at.saturating_add(place_bytes::digits(line, at, most))
}

// A mark, at its p.
fn mark(line: &[u8], at: usize) -> Step {
    let digit = next(at);
    if !byte_at(line, digit).is_ascii_digit() {
        return wanted(line, digit, Finding::NoDigit);
    }
    on(behind_digits(line, digit, 2), Expected::After)
}

// A mark with its `!`.
fn negated(line: &[u8], at: usize) -> Step {
    if byte_at(line, next(at)) != b'p' {
        return wanted(line, next(at), Finding::NoMark);
    }
    mark(line, next(at))
}

// A bracket is opened.
fn opened(at: usize, kind: Open, stack: &mut Stack) -> Step {
    stack.push(kind).ok_or(None)?;
    on(next(at), Expected::Unit)
}

// A unit is expected.
fn unit(line: &[u8], at: usize, stack: &mut Stack) -> Step {
    match byte_at(line, at) {
        b'T' | b'F' => on(next(at), Expected::After),
        b'p' => mark(line, at),
        b'!' => negated(line, at),
        b'N' => on(next(at), Expected::Comparison),
        b'A' | b'E' => on(next(at), Expected::MaybeNumber),
        b'U' => on(next(at), Expected::MaybeBound),
        b'(' => opened(at, Open::Plain, stack),
        _ => no_unit(line, at),
    }
}

// A bracket is closed.
fn closed(at: usize, stack: &mut Stack) -> Step {
    match stack.pop() {
        None => found(at, Finding::NotOpen),
        Some(Open::FirstPart) => found(at, Finding::OnePart),
        Some(Open::Plain | Open::SecondPart) => on(next(at), Expected::After),
    }
}

// A comma: the second part of U begins.
fn comma(at: usize, stack: &mut Stack) -> Step {
    if stack.pop() != Some(Open::FirstPart) {
        return found(at, Finding::Comma);
    }
    opened(at, Open::SecondPart, stack)
}

// A unit was read.
fn after(line: &[u8], at: usize, stack: &mut Stack) -> Step {
    match byte_at(line, at) {
        b'&' | b'|' => on(next(at), Expected::Unit),
        b')' => closed(at, stack),
        b',' => comma(at, stack),
        b'0'..=b'9' => found(at, Finding::LongMark),
        _ => wanted(line, at, Finding::NoOperator),
    }
}

// The place behind a comparison that begins at a place.
fn behind_comparison(line: &[u8], at: usize) -> usize {
    let second = next(at);
    if byte_at(line, second) == b'=' {
        next(second)
    } else {
        second
    }
}

// The comparison of N is expected.
fn comparison(line: &[u8], at: usize) -> Step {
    match byte_at(line, at) {
        b'<' | b'>' => on(behind_comparison(line, at), Expected::Number),
        _ => wanted(line, at, Finding::NoComparison),
    }
}

// The number of N is expected.
fn number(line: &[u8], at: usize) -> Step {
    if !byte_at(line, at).is_ascii_digit() {
        return wanted(line, at, Finding::NoNumber);
    }
    maybe_number(line, at, Expected::Unit)
}

// A number of one to three digits may come, and then this is expected.
fn maybe_number(line: &[u8], at: usize, then: Expected) -> Step {
    on(behind_digits(line, at, 3), then)
}

// The bracket of U is expected.
fn bracket(line: &[u8], at: usize, stack: &mut Stack) -> Step {
    if byte_at(line, at) != b'(' {
        return wanted(line, at, Finding::NoBracket);
    }
    opened(at, Open::FirstPart, stack)
}

// A token that begins at this place.
fn token(line: &[u8], scan: Scan, stack: &mut Stack) -> Step {
    let at = scan.at;
    match scan.expected {
        Expected::Unit => unit(line, at, stack),
        Expected::After => after(line, at, stack),
        Expected::Comparison => comparison(line, at),
        Expected::Number => number(line, at),
        Expected::MaybeNumber => maybe_number(line, at, Expected::Unit),
        Expected::MaybeBound => maybe_number(line, at, Expected::Bracket),
        Expected::Bracket => bracket(line, at, stack),
    }
}

// The line ends behind a unit; whether a line end follows.
fn ended_after(line: &[u8], is_ended: bool, stack: &Stack) -> Step {
    let end = line.len();
    if !stack.is_empty() {
        return found(end, Finding::NotClosed);
    }
    if line.ends_with(b" ") {
        return found(end.saturating_sub(1), Finding::SpaceBehind);
    }
    if !is_ended {
        return found(end, Finding::NoLineEnd);
    }
    Err(None)
}

// The line ends here.
fn ended(line: &[u8], is_ended: bool, expected: Expected, stack: &Stack) -> Step {
    let end = line.len();
    match expected {
        Expected::After => ended_after(line, is_ended, stack),
        Expected::Comparison => found(end, Finding::NoComparison),
        Expected::Number => found(end, Finding::NoNumber),
        Expected::MaybeBound | Expected::Bracket => found(end, Finding::NoBracket),
        Expected::Unit | Expected::MaybeNumber => found(end, Finding::NoUnit),
    }
}

// One turn: a space, a token or the end.
fn turn(line: &[u8], is_ended: bool, scan: Scan, stack: &mut Stack) -> Step {
    match line.get(scan.at) {
        None => ended(line, is_ended, scan.expected, stack),
        Some(b' ') => on(next(scan.at), scan.expected),
        Some(_) => token(line, scan, stack),
    }
}

// The formula, from a place on. A token takes two turns at most, so that every line comes to its end.
fn formula(line: &[u8], at: usize, is_ended: bool) -> Option<Fault> {
    let mut stack = Stack::new();
    let mut scan = Scan {
        at,
        expected: Expected::Unit,
    };
    for _ in 0..16384 {
        match turn(line, is_ended, scan, &mut stack) {
            Ok(after) => scan = after,
            Err(fault) => return fault,
        }
    }
    None
}

// The word was read; a space and the formula follow.
fn behind_word(line: &[u8], at: usize, is_ended: bool) -> Option<Fault> {
    if byte_at(line, at) != b' ' {
        return Some(misfit(line, at, Finding::NoSpace));
    }
    formula(line, at, is_ended)
}

// Whether a line begins with a word of small letters, in capitals too.
fn begins_with(line: &[u8], word: &[u8]) -> bool {
    word.len() <= line.len()
        && line
            .iter()
            .zip(word)
            .all(|(b, letter)| b.eq_ignore_ascii_case(letter))
}

// No word of a rule stands at the start of the line.
fn no_word(line: &[u8]) -> Fault {
    let is_capital = begins_with(line, b"always") || begins_with(line, b"start");
    let what = match byte_at(line, 0) {
        _ if is_capital => Finding::CapitalWord,
        b' ' => Finding::SpaceBefore,
        b'#' | b'/' | b';' => Finding::Comment,
        0xEF => Finding::ByteOrderMark,
        _ => return misfit(line, 0, Finding::NoWord),
    };
    Fault { at: 0, what }
}

// Where a line is not of the grammar, and how; `is_ended` says whether a line end follows it.
pub fn scan_line(line: &[u8], is_ended: bool) -> Option<Fault> {
    if line.is_empty() {
        return Some(Fault {
            at: 0,
            what: Finding::EmptyLine,
        });
    }
    if line.starts_with(b"always") {
        return behind_word(line, 6, is_ended);
    }
    if line.starts_with(b"start") {
        return behind_word(line, 5, is_ended);
    }
    Some(no_word(line))
}

// Numbers, marks, nodes and brackets of a line that is of the grammar, and numbers that are left out.
use place_bytes::{byte_at, spelled};

// A number in a line: where it begins and what it is.
#[derive(Clone, Copy)]
pub struct Numeral {
    pub at: usize,
    pub value: usize,
}

// Whether a number begins at a place: a digit that follows no digit.
fn begins(line: &[u8], at: usize) -> bool {
    byte_at(line, at).is_ascii_digit() && (at == 0 || !byte_at(line, at - 1).is_ascii_digit())
}

// The number at a place, of three digits at most, if one begins there.
fn numeral_at(line: &[u8], at: usize) -> Option<Numeral> {
    begins(line, at).then(|| Numeral {
        at,
        value: spelled(line, at, 3),
    })
}

// Whether a number is a mark's.
fn is_mark(line: &[u8], numeral: &Numeral) -> bool {
    0 < numeral.at && byte_at(line, numeral.at - 1) == b'p'
}

// The first number above 254 of a line.
pub fn large_number(line: &[u8]) -> Option<Numeral> {
    (0..line.len())
        .filter_map(|at| numeral_at(line, at))
        .find(|numeral| 254 < numeral.value && !is_mark(line, numeral))
}

// The first mark of a line that the tower does not have, from its p on.
pub fn wrong_mark(line: &[u8], marks: usize) -> Option<Numeral> {
    let digits = (0..line.len())
        .filter_map(|at| numeral_at(line, at))
        .find(|numeral| marks <= numeral.value && is_mark(line, numeral))?;
    Some(Numeral {
        at: digits.at.saturating_sub(1),
        value: digits.value,
    })
}

// The nodes that a byte makes: one for each constant, mark and connective, and two for E.
fn nodes_of(b: u8) -> usize {
    match b {
        b'T' | b'F' | b'p' | b'&' | b'|' | b'N' | b'A' | b'U' => 1,
        b'E' => 2,
        _ => 0,
    }
}

// The nodes of a text. The words that begin its lines have none of those letters.
pub fn nodes(text: &[u8]) -> usize {
    text.iter()
        .fold(0, |n: usize, b| n.saturating_add(nodes_of(*b)))
}

// The most brackets that are open at once in a line.
pub fn deepest(line: &[u8]) -> usize {
    let mut open = 0usize;
    let mut most = 0;
    for b in line {
        open = match *b {
            b'(' => open.saturating_add(1),
            b')' => open.saturating_sub(1),
            _ => open,
        };
        most = open.max(most);
    }
    most
}

// Whether the first byte behind a place that is no space is no digit either.
fn no_number_behind(line: &[u8], at: usize) -> bool {
    line.iter()
        .skip(at)
        .skip(1)
        .find(|b| **b != b' ')
        .is_some_and(|b| !b.is_ascii_digit())
}

// Whether a line leaves a number out behind A, E or U.
pub fn leaves_out(line: &[u8]) -> bool {
    line.iter().enumerate().any(|(at, b)| matches!(*b, b'A' | b'E' | b'U')
        && no_number_behind(line, at))
}

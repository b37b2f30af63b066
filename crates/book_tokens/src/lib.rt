// The tokens of a rule book (01, 'Rule book'), each read at a position of the text.
#![tactic(auto)]

ghost use Rattle.std.specs.Prelude.{◌≡◌, ◌+◌, ◌≤◌, ◌<◌, length, Some};
ghost use Rattle.reading.specs.Tokens as Tokens;
ghost use Rattle.reading.specs.Grammar as Grammar;
ghost use Rattle.book_tokens.specs.Told as Told;

use text_numerals::{Number, byte_at, numeral};

// A comparison that was read, as the code of its node, and the position after it.
#[derive(Clone, Copy)]
pub struct Compared {
    pub code: u8,
    pub next: usize,
}

// A bound that was read: the code of its comparison, its number, and the position after it.
#[derive(Clone, Copy)]
pub struct Bounded {
    pub code: u8,
    pub amount: usize,
    pub next: usize,
}

// What bound follows a connective: none, a comparison and a number, or a number that may be left out.
#[derive(Clone, Copy)]
pub enum BoundKind {
    NoBound,
    Compared,
    Optional,
}

// A row of the table of connectives: its letter, its number of parts, and what bound follows.
#[derive(Clone, Copy)]
pub struct Row {
    pub letter: u8,
    pub parts: u8,
    pub bound: BoundKind,
}

// The connectives stand in one fixed table: byte, number of parts, bound.
pub const CONNECTIVES: [Row; 9] = [
    Row {
        letter: b'T',
        parts: 0,
        bound: BoundKind::NoBound,
    },
    Row {
        letter: b'F',
        parts: 0,
        bound: BoundKind::NoBound,
    },
    Row {
        letter: b'p',
        parts: 0,
        bound: BoundKind::NoBound,
    },
    Row {
        letter: b'&',
        parts: 2,
        bound: BoundKind::NoBound,
    },
    Row {
        letter: b'|',
        parts: 2,
        bound: BoundKind::NoBound,
    },
    Row {
        letter: b'N',
        parts: 1,
        bound: BoundKind::Compared,
    },
    Row {
        letter: b'A',
        parts: 1,
        bound: BoundKind::Optional,
    },
    Row {
        letter: b'E',
        parts: 1,
        bound: BoundKind::Optional,
    },
    Row {
        letter: b'U',
        parts: 2,
        bound: BoundKind::Optional,
    },
];

// The codes of the comparisons' nodes.
const NO_MORE: u8 = 7;

const LESS: u8 = 8;

const NO_LESS: u8 = 9;

const MORE: u8 = 10;

// The most digits of a number.
const MOST_DIGITS: usize = 3;

// The position after the spaces.
pub fn skip(s: &[u8], at: usize) -> usize
    ensures { result ≡ Tokens.skip s.now at }
{
    for next in at..s.len() {
        if s[next] != b' ' {
            return next;
        }
    }
    at.max(s.len())
}

// The position behind this byte, spaces before it passed over, if it stands there.
pub fn behind(s: &[u8], at: usize, b: u8) -> Option<usize>
    requires { 1 ≤ b }
    ensures { result ≡ Told.place_behind s.now at b }
{
    let next = skip(s, at);
    if byte_at(s, next) != b {
        return None;
    }
    Some(next + 1)
}

// One of `<=` `<` `>=` `>`.
pub fn comparison(s: &[u8], at: usize) -> Option<Compared>
    ensures { result ≡ Told.comparison_told (Tokens.comparison_token s.now at) }
{
    match byte_at(s, at) {
        b'<' => Some(with_equals(s, at, NO_MORE, LESS)),
        b'>' => Some(with_equals(s, at, NO_LESS, MORE)),
        _ => None,
    }
}

// The longer comparison if `=` follows, and else the shorter one.
fn with_equals(s: &[u8], at: usize, long: u8, short: u8) -> Compared
    requires { at < length s.now }
    ensures { result ≡ Told.longer_told s.now at long short }
{
    let next = at + 1;
    if byte_at(s, next) == b'=' {
        Compared {
            code: long,
            next: next + 1,
        }
    } else {
        Compared { code: short, next }
    }
}

// The connective with this letter.
pub fn connective(b: u8) -> Option<Row>
    ensures { result ≡ Told.led_told (Grammar.connective Grammar.connectives b) }
{
    for row in &CONNECTIVES {
        if row.letter == b {
            return Some(*row);
        }
    }
    None
}

// The bound behind a connective's letter, which ends at this position; the usual one where a number may be left out and is.
pub fn bound(usual: usize, kind: BoundKind, s: &[u8], at: usize) -> Option<Bounded>
    ensures { result ≡ Told.bound_by usual kind s.now at }
{
    match kind {
        BoundKind::NoBound => None,
        BoundKind::Compared => bound_compared(s, at),
        BoundKind::Optional => Some(bound_optional(usual, s, at)),
    }
}

// A comparison and its number.
fn bound_compared(s: &[u8], at: usize) -> Option<Bounded>
    ensures { result ≡ Told.bound_told (Grammar.compared_with s.now (Tokens.comparison_token s.now (Tokens.skip s.now at))) }
{
    let compared = comparison(s, skip(s, at))?;
    let amount = numeral(s, skip(s, compared.next), MOST_DIGITS)?;
    Some(Bounded {
        code: compared.code,
        amount: amount.said,
        next: amount.next,
    })
}

// A number that may be left out.
fn bound_optional(usual: usize, s: &[u8], at: usize) -> Bounded
    ensures { Some result ≡ Told.bound_told (Grammar.bound_at usual Grammar.Bound.optional s.now at) }
{
    let left_out = Number {
        said: usual,
        next: at,
    };
    let amount = numeral(s, skip(s, at), MOST_DIGITS).unwrap_or(left_out);
    Bounded {
        code: NO_MORE,
        amount: amount.said,
        next: amount.next,
    }
}

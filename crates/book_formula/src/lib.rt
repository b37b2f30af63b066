// The formulas of a rule book (01, 'Rule book'): or_level, and_level and unit readers call each other in a cycle; the bytes left fall,
// with a level number. Each answers the position after what it reads, where that is of the grammar.
// The nodes go to the lent area, with the rest of the reader's state (book_nodes).
#![tactic(auto)]

ghost use Rattle.std.specs.Prelude.{◌≡◌, ◌≤◌, ◌<◌, length};
ghost use Rattle.base.specs.Bytes.{byte_at};
ghost use Rattle.reading.specs.Tokens as Tokens;
ghost use Rattle.reading.specs.Grammar as Grammar;
ghost use Rattle.book_nodes.specs.State as State;
ghost use Rattle.book_formula.specs.Parse as Parse;

// 01, 'Why a call is turned down': the most open brackets.
const MOST_BRACKETS: usize = 16;

// The codes of nodes (reading/specs/BookArea).
const FALSE: u8 = 0;

const TRUE: u8 = 1;

const WITHOUT_MARK: u8 = 2;

const WITH_MARK: u8 = 3;

const ALWAYS: u8 = 11;

// The most digits of a mark.
const MARK_DIGITS: usize = 2;

// The formula at a position, joined by `|` and `&`.
pub fn formula(s: &[u8], at: usize, area: &mut [u8]) -> Option<usize>
    requires { 512 ≤ length area.old }
    ensures { Parse.Reads (Grammar.formula_at (State.usual_in area.old) s.now at) 16 area.old area.new result }
{
    or_level(s, at, MOST_BRACKETS, area)
}

// Formulas joined by `&`, joined by `|` from the left.
#[cycle(formula_readers)]
fn or_level(s: &[u8], at: usize, room: usize, area: &mut [u8]) -> Option<usize>
    requires { 512 ≤ length area.old }
    ensures { Parse.Reads (Parse.parse (State.usual_in area.old) s.now Grammar.Level.or_level at) room area.old area.new result }
{
    let mut next = and_level(&*s, at, room, area)?;
    while let Some(behind) = book_tokens::behind(s, next, b'|') {
        let first = book_nodes::last_node(area);
        let timed = book_nodes::is_timed(area);
        next = and_level(&*s, book_tokens::skip(s, behind), room, area)?;
        book_nodes::or_node(area, first, timed);
    }
    Some(next)
}

// Units joined by `&` from the left.
#[cycle(formula_readers)]
fn and_level(s: &[u8], at: usize, room: usize, area: &mut [u8]) -> Option<usize>
    requires { 512 ≤ length area.old }
    ensures { Parse.Reads (Parse.parse (State.usual_in area.old) s.now Grammar.Level.and_level at) room area.old area.new result }
{
    let mut next = unit(&*s, at, room, area)?;
    while let Some(behind) = book_tokens::behind(s, next, b'&') {
        let first = book_nodes::last_node(area);
        let timed = book_nodes::is_timed(area);
        next = unit(&*s, book_tokens::skip(s, behind), room, area)?;
        book_nodes::and_node(area, first, timed);
    }
    Some(next)
}

// A unit: a formula in brackets, a mark, a constant, or what a connective leads.
#[cycle(formula_readers)]
fn unit(s: &[u8], at: usize, room: usize, area: &mut [u8]) -> Option<usize>
    requires { 512 ≤ length area.old }
    ensures { Parse.Reads (Parse.parse (State.usual_in area.old) s.now Grammar.Level.unit_level at) room area.old area.new result }
{
    match text_numerals::byte_at(s, at) {
        b'(' => bracketed(s, at, room, area),
        b'!' => mark(s, at + 1, false, area),
        b'p' => mark(s, at, true, area),
        b'T' => {
            book_nodes::leaf(area, TRUE, 0);
            Some(at + 1)
        }
        b'F' => {
            book_nodes::leaf(area, FALSE, 0);
            Some(at + 1)
        }
        b => led(s, at, b, room, area),
    }
}

// The code of the node of a mark, wanted or not.
fn mark_code(wanted: bool) -> u8
    ensures { result ≡ Parse.mark_code wanted }
{
    if wanted { WITH_MARK } else { WITHOUT_MARK }
}

// `p` and its digits: a mark that is wanted or not.
fn mark(s: &[u8], at: usize, wanted: bool, area: &mut [u8]) -> Option<usize>
    requires { 512 ≤ length area.old }
    ensures { Parse.Marks result wanted s.now at area.old area.new }
{
    if text_numerals::byte_at(s, at) != b'p' {
        return None;
    }
    let number = text_numerals::numeral(s, at + 1, MARK_DIGITS)?;
    book_nodes::mark_node(area, mark_code(wanted), number.said);
    Some(number.next)
}

// A formula in brackets, the opening one at this position.
#[cycle(formula_readers)]
fn bracketed(s: &[u8], at: usize, room: usize, area: &mut [u8]) -> Option<usize>
    requires { (512 ≤ length area.old) × (at < length s.now) }
    ensures { Parse.Reads (Grammar.bracketed s.now at (Parse.parse (State.usual_in area.old) s.now)) room area.old area.new result }
{
    let inner = book_nodes::open(area, room);
    let next = or_level(s, book_tokens::skip(s, at + 1), inner, area)?;
    book_tokens::behind(s, next, b')')
}

// What a connective with a bound leads: its letter b stands at this position.
#[cycle(formula_readers)]
fn led(s: &[u8], at: usize, b: u8, room: usize, area: &mut [u8]) -> Option<usize>
    requires { (512 ≤ length area.old) × (b ≡ byte_at s.now at) }
    ensures { Parse.LetterLeads result b s.now at room area.old area.new }
{
    let row = book_tokens::connective(b)?;
    let usual = book_nodes::usual(area);
    let bound = book_tokens::bound(usual, row.bound, s, at + 1)?;
    if row.parts != 1 {
        return two_parts(s, bound.next, bound.amount, room, area);
    }
    if b == b'E' {
        return within(s, bound.next, bound.amount, room, area);
    }
    let code = one_code(b, bound.code);
    one_part(s, bound.next, code, bound.amount, room, area)
}

// The code of the node of `A`, or of `N` with the comparison of this code.
fn one_code(b: u8, code: u8) -> u8
    ensures { result ≡ Parse.one_code b code }
{
    if b == b'A' { ALWAYS } else { code }
}

// The part of `N` or `A`, whose bound ends at this position, and its node.
#[cycle(formula_readers)]
fn one_part(
    s: &[u8],
    at: usize,
    code: u8,
    amount: usize,
    room: usize,
    area: &mut [u8],
) -> Option<usize>
    requires { 512 ≤ length area.old }
    ensures { Parse.ReadsOne (Parse.parse (State.usual_in area.old) s.now Grammar.Level.unit_level (Tokens.skip s.now at)) code amount room area.old area.new result }
{
    let next = unit(s, book_tokens::skip(s, at), room, area)?;
    book_nodes::bounded_node(area, code, amount, 0);
    Some(next)
}

// `E t g` means `U t (T, g)`: the node of T, the part, and the node of the until.
#[cycle(formula_readers)]
fn within(s: &[u8], at: usize, amount: usize, room: usize, area: &mut [u8]) -> Option<usize>
    requires { 512 ≤ length area.old }
    ensures { Parse.Reads (Parse.within_at (State.usual_in area.old) s.now at amount) room area.old area.new result }
{
    book_nodes::leaf(area, TRUE, 0);
    let first = book_nodes::last_node(area);
    let next = unit(s, book_tokens::skip(s, at), room, area)?;
    book_nodes::until_node(area, amount, first);
    Some(next)
}

// The two parts of `U`, `(f, g)`, behind its bound, and its node.
#[cycle(formula_readers)]
fn two_parts(s: &[u8], at: usize, amount: usize, room: usize, area: &mut [u8]) -> Option<usize>
    requires { 512 ≤ length area.old }
    ensures { Parse.Reads (Parse.until_at (State.usual_in area.old) s.now at amount) room area.old area.new result }
{
    let begin = book_tokens::behind(s, at, b'(')?;
    let inner = book_nodes::open(area, room);
    let middle = or_level(s, book_tokens::skip(s, begin), inner, area)?;
    second_part(s, middle, amount, inner, area)
}

// The second part of `U` from the comma on, its first part read last, and its node.
#[cycle(formula_readers)]
fn second_part(s: &[u8], at: usize, amount: usize, room: usize, area: &mut [u8]) -> Option<usize>
    requires { 512 ≤ length area.old }
    ensures { Parse.Seconds result s.now at amount room area.old area.new }
{
    let comma = book_tokens::behind(s, at, b',')?;
    let first = book_nodes::last_node(area);
    let end = or_level(s, book_tokens::skip(s, comma), room, area)?;
    let behind = book_tokens::behind(s, end, b')')?;
    book_nodes::until_node(area, amount, first);
    Some(behind)
}

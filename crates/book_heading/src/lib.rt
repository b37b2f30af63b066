// What a rule book begins with (02, item 6): the number that is meant where none is written behind A, E
// or U, and the line of the first rule.
#![tactic(auto)]

ghost use Rattle.std.specs.Prelude.{◌≡◌};
ghost use Rattle.reading.specs.Tokens.{skip, number_token};
ghost use Rattle.book_heading.specs.Ticks as Reading;
ghost use Rattle.book_heading.specs.Heading.{usual_of};

use base::Refusal;

// The number where no `ticks` line sets it, the largest there may be, and the most digits of one.
const USUAL_BOUND: usize = 40;

const MOST_TICKS: usize = 254;

const MOST_DIGITS: usize = 3;

// What a text begins with: the number and the position of the first rule.
#[derive(Clone, Copy)]
pub struct Headed {
    pub usual: usize,
    pub place: usize,
}

// The text begins with the word of a `ticks` line and a space.
fn has_ticks(s: &[u8]) -> bool
    ensures { result ≡ Reading.has_ticks s.now }
{
    s.starts_with(b"ticks ")
}

// The number of the first rule's line: a `ticks` line is line 0.
pub fn first_rule(s: &[u8]) -> usize
    ensures { result ≡ Reading.first_rule s.now }
{
    if has_ticks(s) { 1 } else { 0 }
}

// A `ticks` line behind its word: 6, then 7.
fn ticks_line(s: &[u8]) -> Result<Headed, Refusal>
    ensures { result ≡ Reading.ticks_line s.now (number_token s.now (skip s.now 5)) }
{
    let at = book_tokens::skip(s, 5);
    let number = text_numerals::numeral(s, at, MOST_DIGITS).ok_or(Refusal::Grammar(0))?;
    if text_numerals::byte_at(s, number.next) != b'\n' {
        return Err(Refusal::Grammar(0));
    }
    if MOST_TICKS < number.said {
        return Err(Refusal::Number(0));
    }
    Ok(Headed {
        usual: number.said,
        place: number.next + 1,
    })
}

// What a text begins with, or why it is turned down.
pub fn heading(s: &[u8]) -> Result<Headed, Refusal>
    ensures { result ≡ Reading.heading s.now }
{
    if has_ticks(s) {
        return ticks_line(s);
    }
    Ok(Headed {
        usual: USUAL_BOUND,
        place: 0,
    })
}

// The number that is in force in a book; 0 where its `ticks` line is turned down.
pub fn usual(s: &[u8]) -> usize
    ensures { result ≡ usual_of (Reading.heading s.now) }
{
    match heading(s) {
        Ok(headed) => headed.usual,
        Err(_) => 0,
    }
}

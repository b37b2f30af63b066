// A refusal as numbers, for those who cannot take an enum (01, 'Why a call is turned down'): the
// paper's number and the place that goes with it; and for 14 the reason's row and letter.
#![tactic(auto)]

ghost use Rattle.std.specs.Prelude.{◌≡◌};
ghost use Rattle.base.specs.Answers.{row_of, letter_of, refusal_number, refusal_place};

use base::{Reason, Refusal};

// The number of a table that is not good.
pub const NOT_GOOD: u32 = 14;

// The number, from 1 to 20.
pub fn number(refusal: Refusal) -> u32
    ensures { result ≡ refusal_number refusal }
{
    match refusal {
        Refusal::TowerSize => 1,
        Refusal::Range => 2,
        Refusal::Action => 3,
        Refusal::Target => 4,
        Refusal::Mask => 5,
        Refusal::Grammar(_) => 6,
        Refusal::Number(_) => 7,
        Refusal::Mark(_) => 8,
        Refusal::Limit(_) => 9,
        Refusal::Timed(_) => 10,
        Refusal::Pairs => 11,
        Refusal::NoTable => 12,
        Refusal::Layout => 13,
        Refusal::Area => 15,
        Refusal::Output => 16,
        Refusal::Outside => 17,
        Refusal::NotAllowed => 18,
        Refusal::Log(_) => 19,
        Refusal::Alternatives => 20,
    }
}

// The place: the line for 6 to 10 and for 19, otherwise 0.
pub fn place(refusal: Refusal) -> usize
    ensures { result ≡ refusal_place refusal }
{
    match refusal {
        Refusal::TowerSize => 0,
        Refusal::Range => 0,
        Refusal::Action => 0,
        Refusal::Target => 0,
        Refusal::Mask => 0,
        Refusal::Grammar(line) => line,
        Refusal::Number(line) => line,
        Refusal::Mark(line) => line,
        Refusal::Limit(line) => line,
        Refusal::Timed(line) => line,
        Refusal::Pairs => 0,
        Refusal::NoTable => 0,
        Refusal::Layout => 0,
        Refusal::Area => 0,
        Refusal::Output => 0,
        Refusal::Outside => 0,
        Refusal::NotAllowed => 0,
        Refusal::Log(line) => line,
        Refusal::Alternatives => 0,
    }
}

// The place of a 14: the reason's row for b to d, otherwise 0.
pub fn row(reason: Reason) -> usize
    ensures { result ≡ row_of reason }
{
    match reason {
        Reason::Start => 0,
        Reason::Withheld(row) => row,
        Reason::WrongStep(row) => row,
        Reason::Stopped(row) => row,
        Reason::Broken => 0,
    }
}

// The letter inside a 14, from a to e.
pub fn letter(reason: Reason) -> u8
    ensures { result ≡ letter_of reason }
{
    match reason {
        Reason::Start => b'a',
        Reason::Withheld(_) => b'b',
        Reason::WrongStep(_) => b'c',
        Reason::Stopped(_) => b'd',
        Reason::Broken => b'e',
    }
}

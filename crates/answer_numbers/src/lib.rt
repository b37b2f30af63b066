// Answers as numbers, as a caller in another language takes them: an enum cannot cross. Number, place and values are those of the papers, one
// function for each entry's answer.
#![tactic(auto)]

ghost use Rattle.std.specs.Prelude.{◌≡◌, [], ◌∷◌};
ghost use Rattle.base.specs.Answers.{rejection_said, end_said, run_said, answered, refusal_said, reason_said, book_said, make_said, verdict_said, follow_said, log_said, why_said};
ghost use Rattle.answer_numbers.specs.Shown.{shown};

use base::{
    BookAnswer, BrokenRun, FollowAnswer, LogAnswer, LogEnd, MakeAnswer, Reason, Refusal, Rejection,
    Verdict, WhyAnswer,
};

// The first value of a log's answer: every line fits, or one does not.
const FITS: usize = 0;

const FAILS: usize = 1;

// Number 0 and the values of an answer, or a refusal's number, place and letter (0 for none).
#[repr(C)]
#[derive(Clone, Copy)]
pub struct Answer {
    pub number: u32,
    pub letter: u8,
    pub place: usize,
    pub first: usize,
    pub second: usize,
    pub third: usize,
}

// An answer without values.
pub fn yes() -> Answer
    ensures { result ≡ shown (answered []) }
{
    Answer {
        number: 0,
        letter: 0,
        place: 0,
        first: 0,
        second: 0,
        third: 0,
    }
}

// An answer with one value.
fn value(first: usize) -> Answer
    ensures { result ≡ shown (answered (first ∷ [])) }
{
    Answer {
        number: 0,
        letter: 0,
        place: 0,
        first,
        second: 0,
        third: 0,
    }
}

// An answer with two values.
fn two_values(first: usize, second: usize) -> Answer
    ensures { result ≡ shown (answered (first ∷ second ∷ [])) }
{
    Answer {
        number: 0,
        letter: 0,
        place: 0,
        first,
        second,
        third: 0,
    }
}

// An answer with three values.
fn three_values(first: usize, second: usize, third: usize) -> Answer
    ensures { result ≡ shown (answered (first ∷ second ∷ third ∷ [])) }
{
    Answer {
        number: 0,
        letter: 0,
        place: 0,
        first,
        second,
        third,
    }
}

// A refusal.
pub fn refused(refusal: Refusal) -> Answer
    ensures { result ≡ shown (refusal_said refusal) }
{
    let number = refusal_numbers::number(refusal);
    let place = refusal_numbers::place(refusal);
    Answer {
        number,
        letter: 0,
        place,
        first: 0,
        second: 0,
        third: 0,
    }
}

// 14, with the reason why the table is not good.
fn not_good(reason: Reason) -> Answer
    ensures { result ≡ shown (reason_said reason) }
{
    let letter = refusal_numbers::letter(reason);
    let row = refusal_numbers::row(reason);
    Answer {
        number: refusal_numbers::NOT_GOOD,
        letter,
        place: row,
        first: 0,
        second: 0,
        third: 0,
    }
}

// A rejection.
fn rejected(why: Rejection) -> Answer
    ensures { result ≡ shown (rejection_said why) }
{
    match why {
        Rejection::NotGood(reason) => not_good(reason),
        Rejection::Refused(refusal) => refused(refusal),
    }
}

// The book reader's.
pub fn of_book(book: BookAnswer) -> Answer
    ensures { result ≡ shown (book_said book) }
{
    match book {
        Ok(size) => two_values(size.lines, size.nodes),
        Err(refusal) => refused(refusal),
    }
}

// The maker's.
pub fn of_make(made: MakeAnswer) -> Answer
    ensures { result ≡ shown (make_said made) }
{
    match made {
        Ok(length) => value(length),
        Err(refusal) => refused(refusal),
    }
}

// The checker's.
pub fn of_check(verdict: Verdict) -> Answer
    ensures { result ≡ shown (verdict_said verdict) }
{
    match verdict {
        Ok(()) => yes(),
        Err(why) => rejected(why),
    }
}

// The follower's.
pub fn of_follow(followed: FollowAnswer) -> Answer
    ensures { result ≡ shown (follow_said followed) }
{
    match followed {
        Ok(next) => value(next),
        Err(refusal) => refused(refusal),
    }
}

// What a log comes to: 0 and the final row, or 1 and the number of the first line that does not fit.
fn of_end(end: LogEnd) -> Answer
    ensures { result ≡ shown (end_said end) }
{
    match end {
        LogEnd::Row(row) => two_values(FITS, row),
        LogEnd::Line(line) => two_values(FAILS, line),
    }
}

// The run that is shown, if one is.
fn of_run(found: Option<BrokenRun>) -> Answer
    ensures { result ≡ shown (run_said found) }
{
    match found {
        Some(run) => three_values(run.length, run.line, run.position),
        None => yes(),
    }
}

// The log reader's.
pub fn of_log(read: LogAnswer) -> Answer
    ensures { result ≡ shown (log_said read) }
{
    match read {
        Ok(end) => of_end(end),
        Err(why) => rejected(why),
    }
}

// That of the entry that shows why.
pub fn of_why(shows: WhyAnswer) -> Answer
    ensures { result ≡ shown (why_said shows) }
{
    match shows {
        Ok(found) => of_run(found),
        Err(why) => rejected(why),
    }
}

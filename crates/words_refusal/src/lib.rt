// A refusal in plain words, on standard error, for whoever has to mend a file. Lines and columns of a
// book are counted from 1, as editors count them; states, actions and rows from 0, as the listing does.
// The entries decide, and are proved; these words are tested.
#![tactic(auto)]

use base::{Reason, Refusal};
use program_saying::{in_file, say};
use std::io::{Eprint, Print};

// Why a call was refused, with the names of the files that it was about and what they hold.
fn explain<R: Eprint>(
    rt: &R,
    why: Refusal,
    tower: &[u8],
    book: &[u8],
    table: &[u8],
    tower_bytes: &[u8],
    text: &[u8],
    table_bytes: &[u8],
) {
    match why {
        Refusal::TowerSize => {
            words_tower::size(rt, tower, tower_bytes);
        }
        Refusal::Range => {
            words_tower::range(rt, tower, tower_bytes);
        }
        Refusal::Action => {
            words_tower::action(rt, tower, tower_bytes);
        }
        Refusal::Target => {
            words_tower::target(rt, tower, tower_bytes);
        }
        Refusal::Mask => {
            words_tower::mask(rt, tower, tower_bytes);
        }
        Refusal::Grammar(line) => {
            words_book::grammar(rt, book, text, line);
        }
        Refusal::Number(line) => {
            words_book::number(rt, book, text, line);
        }
        Refusal::Mark(line) => {
            words_book::mark(rt, book, text, line, place_tower::marks(tower_bytes));
        }
        Refusal::Limit(line) => {
            words_book::limit(rt, book, text, line);
        }
        Refusal::Timed(line) => {
            words_book::timed(rt, book, text, line);
        }
        Refusal::Pairs => {
            in_file(
                rt,
                book,
                "more than 1000 pairs of a state and what is pending there: shorter bounds or fewer promises at a time are needed",
            );
        }
        Refusal::NoTable => {
            in_file(
                rt,
                book,
                "no table is good for this tower: the rules cannot be kept for ever, whatever is withheld",
            );
        }
        Refusal::Layout => {
            words_table::layout(rt, table, table_bytes, tower, tower_bytes);
        }
        Refusal::Area => {
            say(rt, "a work area is too short\n");
        }
        Refusal::Output => {
            in_file(rt, table, "no room for the table");
        }
        Refusal::Outside => {
            in_file(rt, table, "the row or the action is outside the table");
        }
        Refusal::NotAllowed => {
            in_file(rt, table, "the action is not allowed in that row");
        }
        Refusal::Log(_) => {
            say(rt, "a line of the log is not of its form\n");
        }
        Refusal::Alternatives => {
            in_file(
                rt,
                book,
                "a step leaves more than 16 alternatives: fewer promises beside each other in `|` are needed",
            );
        }
    }
}

// Prints the line of a refusal.
fn print_line<R: Print + Eprint>(rt: &R, why: Refusal) -> bool {
    let mut line = [0u8; 4096];
    let n = program_listing::refusal(why, &mut line);
    program_files::print(rt, &line[..n])
}

// Prints the line of a refusal, and says in plain words what is wrong and where.
pub fn refuse<R: Print + Eprint>(
    rt: &R,
    why: Refusal,
    tower: &[u8],
    book: &[u8],
    table: &[u8],
    tower_bytes: &[u8],
    text: &[u8],
    table_bytes: &[u8],
) {
    if print_line(rt, why) {
        explain(rt, why, tower, book, table, tower_bytes, text, table_bytes);
    }
}

// The same where no table is good for the tower under a book without a rule.
pub fn refuse_tower<R: Print + Eprint>(rt: &R, why: Refusal, tower: &[u8], tower_bytes: &[u8]) {
    if print_line(rt, why) {
        words_tower::dead_end(rt, tower, tower_bytes);
    }
}

// The same where the rules can be kept only by rows that wait for the player alone, such as one of this
// state.
pub fn refuse_waiting<R: Print + Eprint>(rt: &R, why: Refusal, book: &[u8], state: usize) {
    if print_line(rt, why) {
        in_file(
            rt,
            book,
            format_args!(
                "no table is good for this tower: the rules can be kept only by waiting for the player alone, such as in state {state}, and then the tower stops when nobody plays"
            ),
        );
    }
}

// Prints the line of a 14.
fn print_reason<R: Print + Eprint>(rt: &R, reason: Reason) -> bool {
    let mut line = [0u8; 4096];
    let n = program_listing::not_good(reason, &mut line);
    program_files::print(rt, &line[..n])
}

// The same for a table that is not good.
pub fn not_good<R: Print + Eprint>(
    rt: &R,
    reason: Reason,
    table: &[u8],
    tower_bytes: &[u8],
    table_bytes: &[u8],
) {
    if print_reason(rt, reason) {
        words_table::not_good(rt, table, table_bytes, tower_bytes, reason);
    }
}

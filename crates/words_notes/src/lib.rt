// What is worth knowing beside a good answer, on standard error: the lines of a book that leave a number
// out, and the actions that no row of a table allows.
#![tactic(auto)]

ghost use Rattle.std.specs.Iterator.{IsFinite};

use program_saying::{Shown, in_file, say};
use std::io::Eprint;

// Says words of a file with a list of numbers behind them; nothing if there is no number.
fn say_list<R: Eprint, I: Iterator<Item = usize>>(rt: &R, file: &[u8], words: &str, numbers: I)
    requires can_next { I.can_next numbers }
    requires ends { IsFinite (I.remaining numbers) }
{
    let mut is_first = true;
    for n in numbers {
        if is_first {
            say(rt, format_args!("{}: {words} {n}", Shown(file)));
        } else {
            say(rt, format_args!(", {n}"));
        }
        is_first = false;
    }
    if !is_first {
        say(rt, "\n");
    }
}

// Says which of a book's lines leave a number out, counted from 1.
pub fn left_out<R: Eprint>(rt: &R, book: &[u8], text: &[u8], lines: usize) {
    say_list(
        rt,
        book,
        "20 is taken where a number is left out behind A, E or U, in line",
        (0..lines)
            .filter(|line| place_lines::leaves_out(place_lines::line(text, *line)))
            .map(|line| line.saturating_add(1)),
    );
}

// Says which actions no row of a table allows.
pub fn unused<R: Eprint>(rt: &R, name: &[u8], table: &[u8]) {
    say_list(
        rt,
        name,
        "no row allows action",
        (0..place_table::actions(table)).filter(|action| !place_table::allowed_somewhere(
            table, *action,
        )),
    );
}

// Says how many pairs a table was made from, where that is known.
pub fn pairs<R: Eprint>(rt: &R, name: &[u8], count: usize) {
    if count == 0 {
        return;
    }
    in_file(
        rt,
        name,
        format_args!("made from {count} of 1000 pairs of a state and what is pending there"),
    );
}

// The run that shows why a table is not good, in plain words on standard error (02, item 4), for a keeper
// to print and hand on. Which run, line and position it is, is the entry's answer and proved; these words
// are tested. The line of the book is counted from 1, as editors count it; positions, ticks, states and
// actions from 0.
#![tactic(auto)]

ghost use Rattle.std.specs.Prelude.{◌<◌};
ghost use Rattle.logic.specs.Tower.{FitTower, tower_of};
ghost use Rattle.program_run.specs.Walking.{RunInList};

use logic::Position;
use place_bytes::number_at;
use program_run::Point;
use program_saying::{Shown, in_file, say};
use std::io::Eprint;

// The marks of a state, in brackets; nothing where it has none.
fn say_marks<R: Eprint>(rt: &R, tower: &[u8], state: usize)
    requires fit_tower { FitTower tower.now }
    requires state_bound { state < (tower_of tower.now).states }
{
    let marks = file_tower::marks(tower);
    let mut is_first = true;
    for k in 0..marks {
        if file_tower::marked(tower, state, k) {
            let before = if is_first { " (" } else { " " };
            say(rt, format_args!("{before}p{k}"));
            is_first = false;
        }
    }
    if !is_first {
        say(rt, ")");
    }
}

// A position of the run: its tick, and its state with the marks.
fn say_point<R: Eprint>(rt: &R, tower: &[u8], point: Point)
    requires fit_tower { FitTower tower.now }
    requires state_bound { point.state < (tower_of tower.now).states }
{
    say(
        rt,
        format_args!(
            "  position {}, tick {}: state {}",
            point.position.0, point.time.0, point.state
        ),
    );
    say_marks(rt, tower, point.state);
}

// The position and the action that leaves it.
fn say_step<R: Eprint>(rt: &R, tower: &[u8], run: &[u8], point: Point)
    requires fit_tower { FitTower tower.now }
    requires state_bound { point.state < (tower_of tower.now).states }
{
    say_point(rt, tower, point);
    let action = number_at(run, point.position.0);
    say(rt, format_args!(", then action {action}\n"));
}

// The run, a line for each action and one for its end.
fn say_run<R: Eprint>(rt: &R, tower: &[u8], run: &[u8], n: usize)
    requires { RunInList tower.now run.now n }
{
    let mut point = program_run::first(tower, run, n);
    while point.position.0 < n {
        say_step(rt, tower, run, point);
        point = program_run::next(tower, run, n, point);
    }
    say_point(rt, tower, point);
    say(rt, ", where the run ends\n");
}

// The line of the book, and where it is not kept.
fn say_line<R: Eprint>(rt: &R, book: &[u8], text: &[u8], line: usize, place: Position) {
    let number = line.saturating_add(1);
    say(
        rt,
        format_args!("{}, line {number}: the rule is not kept", Shown(book)),
    );
    let rule = place_lines::line(text, line);
    if rule.starts_with(b"s") {
        say(rt, "; a start line is judged at position 0");
    } else {
        say(rt, format_args!(" at position {}", place.0));
    }
    say(rt, format_args!("\n  {}\n", Shown(rule)));
}

// Shows the run of n actions that the table allows, and the line of the book that it breaks, with the
// position.
pub fn show<R: Eprint>(
    rt: &R,
    table: &[u8],
    book: &[u8],
    tower: &[u8],
    text: &[u8],
    run: &[u8],
    n: usize,
    line: usize,
    place: Position,
)
    requires { RunInList tower.now run.now n }
{
    let actions = if n == 1 { "action" } else { "actions" };
    in_file(
        rt,
        table,
        format_args!(
            "a run of {n} {actions} that it allows breaks a rule of {}",
            Shown(book)
        ),
    );
    say_run(rt, tower, run, n);
    say_line(rt, book, text, line, place);
}

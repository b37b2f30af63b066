// What `why_not` prints of the run that shows why (02, item 4): a first line, and a line for each action
// with the position, the time and the state that it leaves. The time and the state are found on a walk
// along the run, from one position to the next. specs/RunLines.antt says which bytes a line has.
#![tactic(auto)]

ghost use Rattle.std.specs.Prelude.{◌<◌, [], ◌∷◌, take};
ghost use Rattle.base.specs.Lists.{joined};
ghost use Rattle.logic.specs.Time.{position, after};
ghost use Rattle.logic.specs.Tower.{tower_of};
ghost use Rattle.program_texts.specs.Decimal.{decimal};
ghost use Rattle.program_texts.specs.Putting.{Puts, PrintedLine};
ghost use Rattle.program_run.specs.RunLines.{broken_line, numbers_line, step_line};
ghost use Rattle.program_run.specs.Walking.{RunInList, OnRun};

use logic::{Position, Tick};
use program_texts::{put_byte, put_bytes, put_decimal};

// A point of a run: a position, the time there and the state there.
#[derive(Clone, Copy)]
pub struct Point {
    pub position: Position,
    pub time: Tick,
    pub state: usize,
}

// Where the run begins.
pub fn first(tower: &[u8], run: &[u8], n: usize) -> Point
    requires { RunInList tower.now run.now n }
    ensures { OnRun result tower.now run.now n (position 0) }
{
    Point {
        position: Position(0),
        time: Tick(0),
        state: file_tower::start(tower),
    }
}

// One action further.
pub fn next(tower: &[u8], run: &[u8], n: usize, point: Point) -> Point
    requires run_in_list { RunInList tower.now run.now n }
    requires on_run { OnRun point tower.now run.now n point.position }
    requires position_lt_n { point.position.0 < n }
    ensures { OnRun result tower.now run.now n (after point.position) }
{
    let at = point.position.0;
    let action = run[at] as usize;
    let length = file_tower::step_length(tower, point.state, action);
    let Some(state) = file_tower::target(tower, point.state, action) else {
        return point;
    };
    Point {
        position: Position(at + 1),
        time: Tick(point.time.0 + length.0),
        state,
    }
}

// A number and a byte behind it.
fn put_number(out: &mut [u8], at: usize, n: usize, behind: u8) -> usize
    ensures { Puts result (joined (decimal n ∷ (behind ∷ []) ∷ [])) out.old at out.new }
{
    let next = put_decimal(out, at, n);
    put_byte(out, next, behind)
}

// The first line: the line that the run breaks, the position, and how many actions the run has.
pub fn head(line: usize, place: Position, length: usize, out: &mut [u8; 4096]) -> usize
    ensures { PrintedLine result (broken_line line place length) out.new }
{
    let a = put_bytes(out, 0, b"broken ");
    let b = put_number(out, a, line, b' ');
    let c = put_number(out, b, place.0, b' ');
    put_number(out, c, length, b'\n')
}

// The four numbers of an action.
fn numbers(place: Position, time: Tick, state: usize, action: usize, out: &mut [u8; 4096]) -> usize
    ensures { PrintedLine result (numbers_line place time state action) out.new }
{
    let a = put_number(out, 0, place.0, b' ');
    let b = put_number(out, a, time.0 as usize, b' ');
    let c = put_number(out, b, state, b' ');
    put_number(out, c, action, b'\n')
}

// The line of the action that leaves a point of the run.
pub fn step(tower: &[u8], run: &[u8], n: usize, point: Point, out: &mut [u8; 4096]) -> usize
    requires run_in_list { RunInList tower.now run.now n }
    requires on_run { OnRun point tower.now run.now n point.position }
    requires position_lt_n { point.position.0 < n }
    ensures { PrintedLine result (step_line (tower_of tower.now) (take n run.now) point.position) out.new }
{
    let at = point.position.0;
    numbers(
        point.position,
        point.time,
        point.state,
        run[at] as usize,
        out,
    )
}

// The lowest line that a run breaks, and where (02, item 4): the states along the run, the nodes judged
// at every position (crate `why_judging`), and then the lines in order.
#![tactic(auto)]

ghost use Rattle.std.specs.Prelude.{◌≤◌, ◌<◌, ◌≡◌, length, take};
ghost use Rattle.std.specs.Prelude.{unwrap_or};
ghost use Rattle.logic.specs.Tower.{FitTower, tower_of};
ghost use Rattle.logic.specs.Runs.{IsRun};
ghost use Rattle.reading.specs.BookArea.{lines_in};
ghost use Rattle.why_judging.specs.Judgement.{position_room, states_size, marks_size, kept_size, RunHeld};
ghost use Rattle.why_lines.specs.Lines.{RunNoted, RunGiven, LinesReady, FirstFailing, LineFails, RunJudged};

use book_progression::line;
use logic::Position;

// The line that a run breaks, and the position.
#[derive(Clone, Copy)]
pub struct Place {
    pub line: usize,
    pub position: Position,
}

// The state that action a leads to from state x; x itself where it is not enabled.
fn next_state(tower: &[u8], x: usize, a: usize) -> usize
    requires fit_tower { FitTower tower.now }
    requires x_bound { x < (tower_of tower.now).states }
    requires a_bound { a < (tower_of tower.now).actions }
    ensures { result ≡ unwrap_or ((tower_of tower.now).target x a) x }
{
    file_tower::target(tower, x, a).unwrap_or(x)
}

// The states along the run.
fn note_states(tower: &[u8], run: &[u8], n: usize, states: &mut [u8])
    requires fit_tower { FitTower tower.now }
    requires n_le_position_room { n ≤ position_room }
    requires n_in_bounds { n ≤ length run.now }
    requires states_size_in_bounds { states_size ≤ length states.old }
    requires run { IsRun (tower_of tower.now) (take n run.now) }
    ensures { RunNoted tower.now run.now states.new n }
{
    let mut x = file_tower::start(tower);
    for i in 0..n {
        area_bytes::put_two_bytes(states, 2 * i, x);
        x = next_state(tower, x, run[i] as usize);
    }
}

// The lowest position where node k is not kept, if it is not kept everywhere.
fn first_failing(kept: &[u8], n: usize, k: usize) -> Option<Position>
    requires kept_size_in_bounds { kept_size ≤ length kept.now }
    requires k_bound { k < 60 }
    requires n_le_position_room { n ≤ position_room }
    ensures { FirstFailing kept.now n k result }
{
    for i in 0..n {
        if !why_judging::kept_at(kept, k, Position(i)) {
            return Some(Position(i));
        }
    }
    None
}

// Where line l fails, if it is broken. An `always` line fails at the lowest position where its formula is
// not kept, a `start` line at position 0.
fn line_fails(
    tower: &[u8],
    nodes: &[u8],
    run: &[u8],
    states: &[u8],
    n: usize,
    kept: &[u8],
    l: usize,
) -> Option<Position>
    requires run_held { RunHeld tower.now run.now states.now n }
    requires lines_ready { LinesReady tower.now nodes.now run.now states.now n kept.now }
    requires l_bound { l < lines_in nodes.now }
    ensures { LineFails tower.now nodes.now run.now states.now n l result }
{
    let k = line::formula(nodes, l);
    if line::form(nodes, l) == line::ALWAYS {
        return first_failing(kept, n, k);
    }
    if why_judging::kept_at(kept, k, Position(0)) {
        return None;
    }
    Some(Position(0))
}

// The lowest line that fails, and where.
fn lowest(tower: &[u8], nodes: &[u8], run: &[u8], states: &[u8], n: usize, kept: &[u8]) -> Place
    requires run_noted { RunNoted tower.now run.now states.now n }
    requires lines_ready { LinesReady tower.now nodes.now run.now states.now n kept.now }
    ensures { RunJudged result tower.now nodes.now run.now n }
{
    let lines = line::count(nodes);
    for l in 0..lines {
        if let Some(at) = line_fails(tower, nodes, run, states, n, kept, l) {
            return Place {
                line: l,
                position: at,
            };
        }
    }
    Place {
        line: lines,
        position: Position(0),
    }
}

// The lowest line that the run breaks, and where: for an `always` line the lowest position where its
// formula is not kept, for a `start` line 0. Past the last line if it breaks none.
pub fn judge(
    tower: &[u8],
    nodes: &[u8],
    run: &[u8],
    n: usize,
    states: &mut [u8],
    marks: &mut [u8],
    kept: &mut [u8],
) -> Place
    requires run_given { RunGiven tower.now nodes.now run.now n }
    requires states_size_in_bounds { states_size ≤ length states.old }
    requires marks_size_in_bounds { marks_size ≤ length marks.old }
    requires kept_size_in_bounds { kept_size ≤ length kept.old }
    ensures { RunJudged result tower.now nodes.now run.now n }
{
    note_states(tower, run, n, states);
    why_judging::judge_nodes(tower, nodes, run, states, n, marks, kept);
    lowest(tower, nodes, run, states, n, kept)
}

// One action from a pair (01, 'What is pending', pairs): what is pending behind the step, and the pair that
// it leads to, looked up among those that are met. A pair is an entry of the lent area: its state and its
// alternatives (specs/Stepped.antt). And the moves of a pair that is over_full: it is stepped from by no
// action.
#![tactic(auto)]

ghost use Rattle.std.specs.Prelude.{◌+◌, ◌*◌, ◌<◌, ◌≤◌, ◌≡◌, true, length, IfSome};
ghost use Rattle.std.specs.Prelude.{Some};
ghost use Rattle.logic.specs.Tower.{FitTower, tower_of};
ghost use Rattle.alternatives.specs.Alternatives.{these};
ghost use Rattle.set_index.specs.Entries.{entries_size, entry_number};
ghost use Rattle.pair_sets.specs.PairSets.{Entered, Open};
ghost use Rattle.pair_trial.specs.Walked.{walked, Files};
ghost use Rattle.pair_trial.specs.Trial.{waiting_set};
ghost use Rattle.pair_graph.specs.Steps.{graph_size, pair_room, action_room};
ghost use Rattle.pair_step.specs.Stepped.{Searching, blocked_number, Blocked, Earlier, MoveLeads, TakenOver, Single, RoomFor, NextEntered, ActionFollowed, Stepped};

// Where an action leads, as the number of its move, and how many pairs are met then.
#[derive(Clone, Copy)]
struct Way {
    code: usize,
    met: usize,
}

// ---- what is pending behind a step

// An action before a that is enabled in pair i and whose step from the tower's state x is as long as that
// of a, if there is one.
fn earlier(tower: &[u8], graph: &[u8], x: usize, i: usize, a: usize) -> Option<usize>
    requires fit_tower { FitTower tower.now }
    requires x_bound { x < (tower_of tower.now).states }
    requires a_bound { a < (tower_of tower.now).actions }
    requires graph_size_in_bounds { graph_size ≤ length graph.now }
    requires i_lt_pair_room { i < pair_room }
    ensures { IfSome result (λ b. Earlier b tower.now graph.now x i a) }
{
    let d = file_tower::step_length(tower, x, a);
    for b in 0..a {
        let e = file_tower::step_length(tower, x, b);
        if e == d {
            if pair_graph::enabled(graph, i, b) {
                return Some(b);
            }
        }
    }
    None
}

// Entry n gets the number, and what is pending behind the step of action b from pair i, whose move is
// written. False if that step is broken.
fn take_over(
    nodes: &[u8],
    pairs: &mut [u8],
    graph: &[u8],
    i: usize,
    b: usize,
    number: usize,
    n: usize,
) -> bool
    requires move_leads { MoveLeads graph.now pairs.old i b n }
    requires fact { Open nodes.now pairs.old n }
    requires graph_size_in_bounds { graph_size ≤ length graph.now }
    requires i_lt_pair_room { i < pair_room }
    requires b_lt_action_room { b < action_room }
    requires number_bound { number < 65536 }
    ensures { TakenOver nodes.now graph.now pairs.old i b number n pairs.new result }
{
    let m = pair_graph::move_number(graph, i, b);
    if m < pair_graph::FIRST_PAIR {
        return false;
    }
    pair_sets::copy(nodes, pairs, m - pair_graph::FIRST_PAIR, number, n);
    true
}

// Entry n gets the number, and what waits of action a. False if the step is broken.
fn enter_waiting(
    nodes: &[u8],
    pairs: &mut [u8],
    room: &[u8],
    a: usize,
    number: usize,
    n: usize,
) -> bool
    requires fact { Open nodes.now pairs.old n }
    requires room_for { RoomFor room.now a }
    requires number_bound { number < 65536 }
    ensures { Entered result nodes.now pairs.old number n (these (waiting_set nodes.now room.now a)) pairs.new }
{
    let count = room[pair_trial::COUNTS + a] as usize;
    if count == 0 {
        return false;
    }
    let place = room[pair_trial::PLACES + a] as usize;
    let at = pair_trial::WAITING + pair_trial::SET * place;
    pair_sets::take(nodes, pairs, room, at, count, number, n);
    true
}

// Entry n gets the number, and what is pending behind the step of action a from pair i, where no or of
// the book has two timed sides. False if the step is broken. What is pending there depends on the length
// of the step and not on the action: so progression is asked once for each length.
fn enter_single(
    tower: &[u8],
    table: &[u8],
    rows: bool,
    nodes: &[u8],
    pairs: &mut [u8],
    graph: &[u8],
    i: usize,
    a: usize,
    number: usize,
    n: usize,
) -> bool
    requires single { Single tower.now table.now rows nodes.now pairs.old n graph.now i a }
    requires number_bound { number < 65536 }
    ensures { NextEntered result (walked tower.now table.now rows) nodes.now pairs.old i a number n pairs.new }
{
    let x = set_index::number(pairs, i);
    let z = pair_trial::tower_state(tower, table, rows, x);
    if let Some(b) = earlier(tower, graph, z, i, a) {
        return take_over(nodes, pairs, graph, i, b, number, n);
    }
    let d = file_tower::step_length(tower, z, a);
    let mask = file_tower::mask(tower, z);
    pair_sets::follow(nodes, mask, d, pairs, i, number, n)
}

// Entry n gets the number, and what is pending behind the step of action a from pair i to the state of
// that number. False if the step is broken.
fn enter(
    tower: &[u8],
    table: &[u8],
    rows: bool,
    nodes: &[u8],
    wide: bool,
    pairs: &mut [u8],
    index: &[u8],
    graph: &[u8],
    room: &[u8],
    i: usize,
    a: usize,
    number: usize,
    n: usize,
) -> bool
    requires searching { Searching tower.now table.now rows nodes.now wide pairs.old n index.now graph.now room.now i (i + 1) (16 * i + a) }
    requires a_bound { a < (walked tower.now table.now rows).actions }
    requires a_value { (walked tower.now table.now rows).target (entry_number pairs.old i) a ≡ Some number }
    ensures { NextEntered result (walked tower.now table.now rows) nodes.now pairs.old i a number n pairs.new }
{
    if wide {
        return enter_waiting(nodes, pairs, room, a, number, n);
    }
    enter_single(tower, table, rows, nodes, pairs, graph, i, a, number, n)
}

// ---- a pair that is over_full

// The number of the move of action a from such a pair, of state x: it is stepped from by no action.
fn blocked_code(tower: &[u8], table: &[u8], rows: bool, x: usize, a: usize) -> usize
    requires files { Files tower.now table.now rows }
    requires x_bound { x < (walked tower.now table.now rows).states }
    requires a_bound { a < (walked tower.now table.now rows).actions }
    ensures { result ≡ blocked_number ((walked tower.now table.now rows).target x a) }
{
    if pair_trial::is_enabled(tower, table, rows, x, a) {
        return pair_graph::BROKEN;
    }
    pair_graph::NOT_ENABLED
}

// Writes the moves of such a pair.
pub fn block(tower: &[u8], table: &[u8], rows: bool, pairs: &[u8], graph: &mut [u8], i: usize)
    requires files { Files tower.now table.now rows }
    requires i_bound { entry_number pairs.now i < (walked tower.now table.now rows).states }
    requires entries_size_in_bounds { entries_size ≤ length pairs.now }
    requires graph_size_in_bounds { graph_size ≤ length graph.old }
    requires i_lt_pair_room { i < pair_room }
    ensures { Blocked (walked tower.now table.now rows) pairs.now i (walked tower.now table.now rows).actions graph.old graph.new }
{
    let x = set_index::number(pairs, i);
    let actions = file_tower::actions(tower);
    for a in 0..actions {
        let code = blocked_code(tower, table, rows, x, a);
        pair_graph::put_move(graph, i, a, code);
    }
}

// ---- one action

// The pair to which action a leads from pair i, of state y, is looked up as entry n. It is one more if
// it is new.
fn look_up(
    tower: &[u8],
    table: &[u8],
    rows: bool,
    nodes: &[u8],
    wide: bool,
    pairs: &mut [u8],
    index: &mut [u8],
    graph: &[u8],
    room: &[u8],
    i: usize,
    a: usize,
    y: usize,
    n: usize,
) -> Way
    requires searching { Searching tower.now table.now rows nodes.now wide pairs.old n index.old graph.now room.now i (i + 1) (16 * i + a) }
    requires a_bound { a < (walked tower.now table.now rows).actions }
    requires a_value { (walked tower.now table.now rows).target (entry_number pairs.old i) a ≡ Some y }
    ensures { ActionFollowed result (walked tower.now table.now rows) nodes.now wide pairs.old i a n pairs.new index.new }
{
    if !enter(
        tower, table, rows, nodes, wide, pairs, index, graph, room, i, a, y, n,
    ) {
        return Way {
            code: pair_graph::BROKEN,
            met: n,
        };
    }
    let place = pair_sets::note(pairs, index, n);
    Way {
        code: place.at + pair_graph::FIRST_PAIR,
        met: place.met,
    }
}

// Follows action a from pair i to state y: to the pair to which an earlier action led, if what waits of
// both is the same and so is the state; else that pair is looked up.
fn lead(
    tower: &[u8],
    table: &[u8],
    rows: bool,
    nodes: &[u8],
    wide: bool,
    pairs: &mut [u8],
    index: &mut [u8],
    graph: &[u8],
    room: &[u8],
    i: usize,
    a: usize,
    y: usize,
    n: usize,
) -> Way
    requires searching { Searching tower.now table.now rows nodes.now wide pairs.old n index.old graph.now room.now i (i + 1) (16 * i + a) }
    requires a_bound { a < (walked tower.now table.now rows).actions }
    requires a_value { (walked tower.now table.now rows).target (entry_number pairs.old i) a ≡ Some y }
    ensures { ActionFollowed result (walked tower.now table.now rows) nodes.now wide pairs.old i a n pairs.new index.new }
{
    if wide {
        if let Some(j) = pair_repeats::led_before(pairs, graph, room, i, a, y) {
            return Way {
                code: j + pair_graph::FIRST_PAIR,
                met: n,
            };
        }
    }
    look_up(
        tower, table, rows, nodes, wide, pairs, index, graph, room, i, a, y, n,
    )
}

// Follows action a from pair i, if it is enabled there.
fn follow(
    tower: &[u8],
    table: &[u8],
    rows: bool,
    nodes: &[u8],
    wide: bool,
    pairs: &mut [u8],
    index: &mut [u8],
    graph: &[u8],
    room: &[u8],
    i: usize,
    a: usize,
    n: usize,
) -> Way
    requires searching { Searching tower.now table.now rows nodes.now wide pairs.old n index.old graph.now room.now i (i + 1) (16 * i + a) }
    requires a_bound { a < (walked tower.now table.now rows).actions }
    ensures { ActionFollowed result (walked tower.now table.now rows) nodes.now wide pairs.old i a n pairs.new index.new }
{
    let x = set_index::number(pairs, i);
    match pair_trial::target(tower, table, rows, x, a) {
        Some(y) => lead(
            tower, table, rows, nodes, wide, pairs, index, graph, room, i, a, y, n,
        ),
        None => Way {
            code: pair_graph::NOT_ENABLED,
            met: n,
        },
    }
}

// Follows action a from pair i and writes where it leads. Answers how many pairs are met then.
pub fn step(
    tower: &[u8],
    table: &[u8],
    rows: bool,
    nodes: &[u8],
    wide: bool,
    pairs: &mut [u8],
    index: &mut [u8],
    graph: &mut [u8],
    room: &[u8],
    i: usize,
    a: usize,
    n: usize,
) -> usize
    requires searching { Searching tower.now table.now rows nodes.now wide pairs.old n index.old graph.old room.now i (i + 1) (16 * i + a) }
    requires a_bound { a < (walked tower.now table.now rows).actions }
    ensures { Stepped result (walked tower.now table.now rows) nodes.now wide pairs.old i a n pairs.new index.new graph.new }
{
    let way = follow(
        tower, table, rows, nodes, wide, pairs, index, graph, room, i, a, n,
    );
    pair_graph::put_move(graph, i, a, way.code);
    way.met
}

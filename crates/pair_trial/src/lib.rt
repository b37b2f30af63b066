// The tower whose pairs are searched, and a pair that is tried. The tower is that of a file, or the rows
// of a table for it (specs/Walked.antt). A pair is tried by every action: what comes of it waits in the
// room, since a pair that gives over 16 alternatives is stepped from by none (specs/Trial.antt).
#![tactic(auto)]

ghost use Rattle.std.specs.Prelude.{◌+◌, ◌*◌, ◌<◌, ◌≤◌, ◌≡◌, true, length, IfSome};
ghost use Rattle.base.specs.Lists.{is_there};
ghost use Rattle.logic.specs.Tables.{move};
ghost use Rattle.reading.specs.BookArea.{nodes_in};
ghost use Rattle.reading.specs.TableReading.{rows_of, laid_out, table_of};
ghost use Rattle.book_progression.specs.NodeBytes.{IsHeld};
ghost use Rattle.set_bytes.specs.SetBytes.{alternative_size};
ghost use Rattle.book_alternatives.specs.Offers.{sets_size};
ghost use Rattle.pair_trial.specs.Walked.{walked, tower_state, Files};
ghost use Rattle.pair_trial.specs.Trial.{room_size, SetAside, WaitsFor, Shared, Trial, ActionTrial, TriedBefore, StepTrial, StepTried, Tried, AllTried};

// The most alternatives after a step.
const MOST_LEFT: usize = 16;

// From one alternative to the next.
const SIZE: usize = 60;

// Where in the room results wait, one set for each action, how many alternatives each action gives, and
// in which set they are.
pub const WAITING: usize = 15360;

pub const SET: usize = 960;

pub const COUNTS: usize = 30720;

pub const PLACES: usize = 30736;

// ---- the tower that is searched

// Where the search starts: the tower's start state, or row 0.
pub fn start(tower: &[u8], table: &[u8], rows: bool) -> usize
    requires { Files tower.now table.now rows }
    ensures { result ≡ (walked tower.now table.now rows).start }
{
    if rows {
        return 0;
    }
    file_tower::start(tower)
}

// The tower's state that state x of it stands for.
pub fn tower_state(tower: &[u8], table: &[u8], rows: bool, x: usize) -> usize
    requires files { Files tower.now table.now rows }
    requires x_bound { x < (walked tower.now table.now rows).states }
    ensures { result ≡ tower_state table.now rows x }
{
    if rows {
        return file_table::row_state(table, x);
    }
    x
}

// Where action a leads from row x of the table.
fn row_target(table: &[u8], x: usize, a: usize) -> Option<usize>
    requires table_value { laid_out table.now ≡ true }
    requires x_bound { x < rows_of table.now }
    ensures { result ≡ move (table_of table.now) x a }
{
    file_table::step_to(table, x, a)
}

// Where action a leads from state x of it.
pub fn target(tower: &[u8], table: &[u8], rows: bool, x: usize, a: usize) -> Option<usize>
    requires files { Files tower.now table.now rows }
    requires x_bound { x < (walked tower.now table.now rows).states }
    requires a_bound { a < (walked tower.now table.now rows).actions }
    ensures { result ≡ (walked tower.now table.now rows).target x a }
{
    if rows {
        return row_target(table, x, a);
    }
    file_tower::target(tower, x, a)
}

// Whether action a is enabled at state x of it.
pub fn is_enabled(tower: &[u8], table: &[u8], rows: bool, x: usize, a: usize) -> bool
    requires files { Files tower.now table.now rows }
    requires x_bound { x < (walked tower.now table.now rows).states }
    requires a_bound { a < (walked tower.now table.now rows).actions }
    ensures { result ≡ is_there ((walked tower.now table.now rows).target x a) }
{
    target(tower, table, rows, x, a).is_some()
}

// ---- a pair is tried

// An action before a that is enabled at x and whose step is as long as that of a, if there is one. State z
// of the tower is what x stands for.
fn tried_before(
    tower: &[u8],
    table: &[u8],
    rows: bool,
    x: usize,
    z: usize,
    a: usize,
) -> Option<usize>
    requires files { Files tower.now table.now rows }
    requires x_bound { x < (walked tower.now table.now rows).states }
    requires z_value { z ≡ tower_state table.now rows x }
    requires a_bound { a < (walked tower.now table.now rows).actions }
    ensures { IfSome result (λ b. TriedBefore b (walked tower.now table.now rows) x a) }
{
    let d = file_tower::step_length(tower, z, a);
    for b in 0..a {
        let e = file_tower::step_length(tower, z, b);
        if e == d {
            if is_enabled(tower, table, rows, x, b) {
                return Some(b);
            }
        }
    }
    None
}

// The alternatives that are left of a step are copied to where they wait.
fn set_aside(cells: usize, sets: &[u8], left: usize, room: &mut [u8], to: usize)
    requires cells_le_alternative_size { cells ≤ alternative_size }
    requires left_bound { left ≤ 16 }
    requires sets_size_in_bounds { sets_size ≤ length sets.now }
    requires to_in_bounds { to + 960 ≤ length room.old }
    ensures { SetAside cells sets.now left room.old to room.new }
{
    for j in 0..left {
        alternative_bytes::copy(
            cells,
            sets,
            book_alternatives::JOINED + SIZE * j,
            room,
            to + SIZE * j,
        );
    }
}

// They wait in the set of action a.
fn wait_for(nodes: &[u8], sets: &[u8], left: usize, room: &mut [u8], a: usize)
    requires held { IsHeld nodes.now }
    requires left_bound { left ≤ 16 }
    requires a_bound { a < 16 }
    requires sets_size_in_bounds { sets_size ≤ length sets.now }
    requires room_size_in_bounds { room_size ≤ length room.old }
    ensures { WaitsFor nodes.now sets.now left a room.old room.new }
{
    let cells = book_progression::node_count(nodes);
    set_aside(cells, sets, left, room, WAITING + SET * a);
    room[COUNTS + a] = left as u8;
    room[PLACES + a] = a as u8;
}

// What waits of action b, one before a, waits of a too.
fn share(room: &mut [u8], a: usize, b: usize)
    requires b_lt_a { b < a }
    requires a_bound { a < 16 }
    requires room_size_in_bounds { room_size ≤ length room.old }
    ensures { Shared a b room.old room.new }
{
    room[COUNTS + a] = room[COUNTS + b];
    room[PLACES + a] = room[PLACES + b];
}

// Pair i is left by action a from state z of the tower: true if that gives over 16 alternatives. Else
// they wait.
fn try_step(
    tower: &[u8],
    nodes: &[u8],
    pairs: &[u8],
    sets: &mut [u8],
    room: &mut [u8],
    i: usize,
    z: usize,
    a: usize,
) -> bool
    requires step_trial { StepTrial tower.now nodes.now pairs.now i z a }
    requires sets_size_in_bounds { sets_size ≤ length sets.old }
    requires room_size_in_bounds { room_size ≤ length room.old }
    ensures { StepTried result tower.now nodes.now pairs.now i z a room.old room.new }
{
    let d = file_tower::step_length(tower, z, a);
    let mask = file_tower::mask(tower, z);
    let first = set_index::first(pairs, i);
    let count = set_index::first(pairs, i + 1) - first;
    let left = book_alternatives::progressed(
        nodes,
        mask,
        d,
        pairs,
        SIZE * first,
        count,
        sets,
        room,
    );
    if MOST_LEFT < left {
        return true;
    }
    wait_for(nodes, sets, left, room, a);
    false
}

// Pair i is tried by action a, which is enabled at its state x: true if it gives over 16 alternatives.
// Else what comes of it waits.
fn try_enabled(
    tower: &[u8],
    table: &[u8],
    rows: bool,
    nodes: &[u8],
    pairs: &[u8],
    sets: &mut [u8],
    room: &mut [u8],
    i: usize,
    x: usize,
    a: usize,
) -> bool
    requires action_trial { ActionTrial tower.now table.now rows nodes.now pairs.now i x a }
    requires sets_size_in_bounds { sets_size ≤ length sets.old }
    requires room_size_in_bounds { room_size ≤ length room.old }
    ensures { Tried result (walked tower.now table.now rows) nodes.now pairs.now i a room.old room.new }
{
    let z = tower_state(tower, table, rows, x);
    if let Some(b) = tried_before(tower, table, rows, x, z, a) {
        share(room, a, b);
        return false;
    }
    try_step(tower, nodes, pairs, sets, room, i, z, a)
}

// Pair i is tried by action a, if it is enabled.
fn try_action(
    tower: &[u8],
    table: &[u8],
    rows: bool,
    nodes: &[u8],
    pairs: &[u8],
    sets: &mut [u8],
    room: &mut [u8],
    i: usize,
    a: usize,
) -> bool
    requires trial { Trial tower.now table.now rows nodes.now pairs.now i }
    requires a_bound { a < (walked tower.now table.now rows).actions }
    requires sets_size_in_bounds { sets_size ≤ length sets.old }
    requires room_size_in_bounds { room_size ≤ length room.old }
    ensures { Tried result (walked tower.now table.now rows) nodes.now pairs.now i a room.old room.new }
{
    let x = set_index::number(pairs, i);
    if !is_enabled(tower, table, rows, x, a) {
        return false;
    }
    try_enabled(tower, table, rows, nodes, pairs, sets, room, i, x, a)
}

// Pair i is tried by every action: true if one gives over 16 alternatives.
pub fn try_all(
    tower: &[u8],
    table: &[u8],
    rows: bool,
    nodes: &[u8],
    pairs: &[u8],
    sets: &mut [u8],
    room: &mut [u8],
    i: usize,
) -> bool
    requires trial { Trial tower.now table.now rows nodes.now pairs.now i }
    requires sets_size_in_bounds { sets_size ≤ length sets.old }
    requires room_size_in_bounds { room_size ≤ length room.old }
    ensures { AllTried result (walked tower.now table.now rows) nodes.now pairs.now i room.new }
{
    let actions = file_tower::actions(tower);
    for a in 0..actions {
        if try_action(tower, table, rows, nodes, pairs, sets, room, i, a) {
            return true;
        }
    }
    false
}

// The graph of pairs in its lent area (specs/Steps.antt): the one code that reads and writes it. Every
// phase of the maker asks here where an action leads, and nothing but this knows what lies where.
#![tactic(auto)]

pub mod predecessors;

ghost use Rattle.std.specs.Prelude.{◌+◌, ◌*◌, ◌<◌, ◌≤◌, ◌≡◌, length};
ghost use Rattle.std.proofs.lemmas.List.Edits.{sets};
ghost use Rattle.base.specs.Bytes.{number_at, number_bytes};
ghost use Rattle.pair_graph.specs.Steps.{cell, states_at, graph_size, pair_room, action_room, move_at, state_in, safe_in, class_in, is_enabled, led_to, FlaggedGraph};

// Room for so many actions from each pair, a move of two bytes each; behind the moves the states.
const ACTION_ROOM: usize = 16;

const STATES_AT: usize = 32000;

// How a move is written: that the action is not enabled, that the step is broken, and that it leads to
// pair 0; the other pairs follow.
pub const NOT_ENABLED: usize = 0;

pub const BROKEN: usize = 1;

pub const FIRST_PAIR: usize = 2;

// The flag of a safe pair.
pub const SAFE: u8 = 1;

// The move of action a from pair i, as it is written.
pub fn move_number(graph: &[u8], i: usize, a: usize) -> usize
    requires graph_size_in_bounds { graph_size ≤ length graph.now }
    requires i_lt_pair_room { i < pair_room }
    requires a_lt_action_room { a < action_room }
    ensures { result ≡ number_at 2 graph.now (cell i a) }
{
    area_bytes::two_bytes(graph, 2 * (ACTION_ROOM * i + a))
}

// Writes the move of action a from pair i.
pub fn put_move(graph: &mut [u8], i: usize, a: usize, number: usize)
    requires graph_size_in_bounds { graph_size ≤ length graph.old }
    requires i_lt_pair_room { i < pair_room }
    requires a_lt_action_room { a < action_room }
    ensures { graph.new ≡ sets graph.old (cell i a) (number_bytes 2 number) }
{
    area_bytes::put_two_bytes(graph, 2 * (ACTION_ROOM * i + a), number);
}

// The state of pair i.
pub fn state(graph: &[u8], i: usize) -> usize
    requires graph_size_in_bounds { graph_size ≤ length graph.now }
    requires i_lt_pair_room { i < pair_room }
    ensures { result ≡ state_in graph.now i }
{
    area_bytes::two_bytes(graph, STATES_AT + 2 * i)
}

// Writes the state of pair i.
pub fn put_state(graph: &mut [u8], i: usize, x: usize)
    requires graph_size_in_bounds { graph_size ≤ length graph.old }
    requires i_lt_pair_room { i < pair_room }
    ensures { graph.new ≡ sets graph.old (states_at + 2 * i) (number_bytes 2 x) }
{
    area_bytes::put_two_bytes(graph, STATES_AT + 2 * i, x);
}

// Pair i is safe.
pub fn is_safe(flags: &[u8], i: usize) -> bool
    requires { i < length flags.now }
    ensures { result ≡ safe_in flags.now i }
{
    flags[i] == SAFE
}

// The class of pair i.
pub fn class(classes: &[u8], i: usize) -> usize
    requires { 2 * i + 1 < length classes.now }
    ensures { result ≡ class_in classes.now i }
{
    area_bytes::two_bytes(classes, 2 * i)
}

// Action a is enabled in pair i.
pub fn enabled(graph: &[u8], i: usize, a: usize) -> bool
    requires graph_size_in_bounds { graph_size ≤ length graph.now }
    requires i_lt_pair_room { i < pair_room }
    requires a_lt_action_room { a < action_room }
    ensures { result ≡ is_enabled (move_at graph.now i a) }
{
    move_number(graph, i, a) != NOT_ENABLED
}

// The safe pair that action a leads to from pair i, if it is allowed there.
pub fn allowed(
    graph: &[u8],
    flags: &[u8],
    pairs: usize,
    actions: usize,
    i: usize,
    a: usize,
) -> Option<usize>
    requires flagged_graph { FlaggedGraph pairs actions graph.now flags.now }
    requires i_lt_pairs { i < pairs }
    requires a_lt_actions { a < actions }
    ensures { result ≡ led_to graph.now flags.now i a }
{
    let m = move_number(graph, i, a);
    if m < FIRST_PAIR {
        return None;
    }
    let j = m - FIRST_PAIR;
    if !is_safe(flags, j) {
        return None;
    }
    Some(j)
}

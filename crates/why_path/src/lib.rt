// The run that leads to a pair as it was first met (02, item 4): from the graph of pairs into a lent
// list. Pairs are numbered as they are met, so the first step that leads to a pair is how it was met.
#![tactic(auto)]

ghost use Rattle.std.specs.Prelude.{◌+◌, ◌*◌, ◌≤◌, ◌<◌, ◌≡◌, length};
ghost use Rattle.pair_graph.specs.Steps.{action_room, pair_room, HoldsGraph};
ghost use Rattle.why_path.specs.Ways.{ways_size, from_in, action_in, StepsNoted, MetFromLower, FromLower, WayLength, WayWritten, RunWritten};

// Where the actions begin, behind two bytes for each pair.
const ACTIONS_AT: usize = 2000;

// The pair from which pair j was first met.
fn from(ways: &[u8], j: usize) -> usize
    requires ways_size_in_bounds { ways_size ≤ length ways.now }
    requires j_lt_pair_room { j < pair_room }
    ensures { result ≡ from_in ways.now j }
{
    area_bytes::two_bytes(ways, 2 * j)
}

// Notes the step by action a from pair i for the pair that it leads to.
fn note_step(graph: &[u8], n: usize, actions: usize, i: usize, a: usize, ways: &mut [u8])
    requires holds_graph { HoldsGraph n actions graph.now }
    requires ways_size_in_bounds { ways_size ≤ length ways.old }
    requires i_lt_n { i < n }
    requires a_lt_actions { a < actions }
    requires steps_noted { StepsNoted n actions graph.now (action_room * i + (a + 1)) ways.old }
    ensures { StepsNoted n actions graph.now (action_room * i + a) ways.new }
{
    let m = pair_graph::move_number(graph, i, a);
    if m < pair_graph::FIRST_PAIR {
        return;
    }
    let j = m - pair_graph::FIRST_PAIR;
    area_bytes::put_two_bytes(ways, 2 * j, i);
    ways[ACTIONS_AT + j] = a as u8;
}

// Notes the steps from pair i, from the last action to the first, so that the first stays.
fn note_pair(graph: &[u8], n: usize, actions: usize, i: usize, ways: &mut [u8])
    requires holds_graph { HoldsGraph n actions graph.now }
    requires ways_size_in_bounds { ways_size ≤ length ways.old }
    requires i_lt_n { i < n }
    requires steps_noted { StepsNoted n actions graph.now (action_room * (i + 1)) ways.old }
    ensures { StepsNoted n actions graph.now (action_room * i) ways.new }
{
    for a in (0..actions).rev() {
        note_step(graph, n, actions, i, a, ways);
    }
}

// Notes how each of n pairs was first met: the steps of all pairs, from the last to the first.
fn note_all(graph: &[u8], n: usize, actions: usize, ways: &mut [u8])
    requires holds_graph { HoldsGraph n actions graph.now }
    requires ways_size_in_bounds { ways_size ≤ length ways.old }
    ensures { StepsNoted n actions graph.now 0 ways.new }
{
    for i in (0..n).rev() {
        note_pair(graph, n, actions, i, ways);
    }
}

// The length of the run to pair i of n.
fn way_length(ways: &[u8], n: usize, i: usize) -> usize
    requires from_lower { FromLower n ways.now }
    requires i_lt_n { i < n }
    ensures { WayLength result ways.now i }
{
    let mut j = i;
    let mut count = 0;
    while j != 0 {
        j = from(ways, j);
        count += 1;
    }
    count
}

// Writes the run to pair i of n, which has this length, to the front of the list, from its last action
// to its first.
fn write_way(ways: &[u8], n: usize, i: usize, size: usize, list: &mut [u8])
    requires from_lower { FromLower n ways.now }
    requires i_lt_n { i < n }
    requires way_length { WayLength size ways.now i }
    requires size_in_bounds { size ≤ length list.old }
    ensures { WayWritten ways.now i list.old list.new }
{
    let mut j = i;
    let mut k = size;
    while j != 0 {
        k -= 1;
        list[k] = ways[ACTIONS_AT + j];
        j = from(ways, j);
    }
}

// Writes the run to pair i of n and action a behind it to the front of the list, and answers its length; nothing
// if the list is shorter than that.
pub fn write_run(
    graph: &[u8],
    n: usize,
    actions: usize,
    i: usize,
    a: usize,
    ways: &mut [u8],
    list: &mut [u8],
) -> Option<usize>
    requires holds_graph { HoldsGraph n actions graph.now }
    requires met_from_lower { MetFromLower n actions graph.now }
    requires ways_size_in_bounds { ways_size ≤ length ways.old }
    requires i_lt_n { i < n }
    requires a_lt_actions { a < actions }
    ensures { RunWritten result n actions graph.now i a ways.new list.old list.new }
{
    note_all(graph, n, actions, ways);
    let size = way_length(ways, n, i);
    if list.len() <= size {
        return None;
    }
    write_way(ways, n, i, size, list);
    list[size] = a as u8;
    Some(size + 1)
}

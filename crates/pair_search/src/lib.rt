// The search for pairs (01, 'What is pending', pairs): the pairs that are met from the start, numbered
// as they are met, and where each action leads from each of them (crates/pair_step). They are those of a
// tower, or those of a table for it: rows with what is pending (crates/pair_trial). Where an or of the
// book has two timed sides a pair is first tried by every action, since an over_full pair is stepped from
// by none.
#![tactic(auto)]

ghost use Rattle.std.specs.Prelude.{◌+◌, ◌*◌, ◌<◌, ◌≤◌, ◌≡◌, true, length};
ghost use Rattle.set_index.specs.Entries.{entries_size, index_size};
ghost use Rattle.book_alternatives.specs.Offers.{sets_size};
ghost use Rattle.pair_trial.specs.Walked.{walked, Walkable};
ghost use Rattle.pair_trial.specs.Trial.{room_size};
ghost use Rattle.pair_graph.specs.Steps.{graph_size};
ghost use Rattle.pair_step.specs.Stepped.{WideRight, Turning, Searching};
ghost use Rattle.pair_search.specs.Explored.{Grown, Turned, SearchBegun, Explored};

use base::Refusal;

// What one turn of the search leaves: how many pairs are met, and whether the pair, or some pair before
// it, was over_full.
#[derive(Clone, Copy)]
struct Round {
    met: usize,
    over: bool,
}

// The most alternatives in all pairs.
const MOST: usize = 1000;

// Follows every action from pair i. It stops where the pairs count over 1,000.
fn follow_all(
    tower: &[u8],
    table: &[u8],
    rows: bool,
    nodes: &[u8],
    wide: bool,
    pairs: &mut [u8],
    index: &mut [u8],
    graph: &mut [u8],
    room: &[u8],
    i: usize,
    met: usize,
) -> usize
    requires { Searching tower.now table.now rows nodes.now wide pairs.old met index.old graph.old room.now i (i + 1) (16 * i) }
    ensures { Grown result (walked tower.now table.now rows) nodes.now wide pairs.old i met pairs.new index.new graph.new }
{
    let actions = file_tower::actions(tower);
    let mut n = met;
    for a in 0..actions {
        n = pair_step::step(
            tower, table, rows, nodes, wide, pairs, index, graph, room, i, a, n,
        );
        if MOST < set_index::first(pairs, n) {
            return n;
        }
    }
    n
}

// Writes the state of pair i and follows every action from it.
fn expand(
    tower: &[u8],
    table: &[u8],
    rows: bool,
    nodes: &[u8],
    wide: bool,
    pairs: &mut [u8],
    index: &mut [u8],
    graph: &mut [u8],
    room: &[u8],
    i: usize,
    met: usize,
) -> usize
    requires { Searching tower.now table.now rows nodes.now wide pairs.old met index.old graph.old room.now i i (16 * i) }
    ensures { Grown result (walked tower.now table.now rows) nodes.now wide pairs.old i met pairs.new index.new graph.new }
{
    pair_graph::put_state(graph, i, set_index::number(pairs, i));
    follow_all(
        tower, table, rows, nodes, wide, pairs, index, graph, room, i, met,
    )
}

// Pair i is tried, and expanded unless it is over_full.
fn turn_wide(
    tower: &[u8],
    table: &[u8],
    rows: bool,
    nodes: &[u8],
    wide: bool,
    pairs: &mut [u8],
    index: &mut [u8],
    graph: &mut [u8],
    sets: &mut [u8],
    room: &mut [u8],
    i: usize,
    met: usize,
    over: bool,
) -> Round
    requires turning { Turning tower.now table.now rows nodes.now wide pairs.old met index.old graph.old i i (16 * i) }
    requires sets_size_in_bounds { sets_size ≤ length sets.old }
    requires room_size_in_bounds { room_size ≤ length room.old }
    requires wide_value { wide ≡ true }
    ensures { Turned result over (walked tower.now table.now rows) nodes.now wide pairs.old i met pairs.new index.new graph.new }
{
    if pair_trial::try_all(tower, table, rows, nodes, pairs, sets, room, i) {
        let x = set_index::number(pairs, i);
        pair_graph::put_state(graph, i, x);
        pair_step::block(tower, table, rows, pairs, graph, i);
        return Round { met, over: true };
    }
    let n = expand(
        tower, table, rows, nodes, wide, pairs, index, graph, room, i, met,
    );
    Round { met: n, over }
}

// Pair i is tried, where that is needed, and expanded unless it is over_full. Some pair before it may
// have been so.
fn turn(
    tower: &[u8],
    table: &[u8],
    rows: bool,
    nodes: &[u8],
    wide: bool,
    pairs: &mut [u8],
    index: &mut [u8],
    graph: &mut [u8],
    sets: &mut [u8],
    room: &mut [u8],
    i: usize,
    met: usize,
    over: bool,
) -> Round
    requires turning { Turning tower.now table.now rows nodes.now wide pairs.old met index.old graph.old i i (16 * i) }
    requires sets_size_in_bounds { sets_size ≤ length sets.old }
    requires room_size_in_bounds { room_size ≤ length room.old }
    ensures { Turned result over (walked tower.now table.now rows) nodes.now wide pairs.old i met pairs.new index.new graph.new }
{
    if wide {
        return turn_wide(
            tower, table, rows, nodes, wide, pairs, index, graph, sets, room, i, met, over,
        );
    }
    let n = expand(
        tower, table, rows, nodes, wide, pairs, index, graph, room, i, met,
    );
    Round { met: n, over }
}

// Each pair in turn, from the first on.
fn explore_on(
    tower: &[u8],
    table: &[u8],
    rows: bool,
    nodes: &[u8],
    wide: bool,
    pairs: &mut [u8],
    index: &mut [u8],
    graph: &mut [u8],
    sets: &mut [u8],
    room: &mut [u8],
) -> Result<usize, Refusal>
    requires walkable { Walkable tower.now table.now rows nodes.now }
    requires wide_right { WideRight wide nodes.now }
    requires search_begun { SearchBegun (walked tower.now table.now rows) nodes.now pairs.old index.old }
    requires index_size_in_bounds { index_size ≤ length index.old }
    requires graph_size_in_bounds { graph_size ≤ length graph.old }
    requires sets_size_in_bounds { sets_size ≤ length sets.old }
    requires room_size_in_bounds { room_size ≤ length room.old }
    ensures { Explored result (walked tower.now table.now rows) nodes.now graph.new }
{
    let mut i = 0;
    let mut n = 1;
    let mut over = false;
    while i < n {
        let at = i;
        i += 1;
        let done = turn(
            tower, table, rows, nodes, wide, pairs, index, graph, sets, room, at, n, over,
        );
        n = done.met;
        over = done.over;
        if MOST < set_index::first(pairs, n) {
            return Err(Refusal::Pairs);
        }
    }
    if over {
        return Err(Refusal::Alternatives);
    }
    Ok(n)
}

// The first pair: the start, with what is pending there. It is the only one that the index knows.
fn begin(tower: &[u8], table: &[u8], rows: bool, nodes: &[u8], pairs: &mut [u8], index: &mut [u8])
    requires walkable { Walkable tower.now table.now rows nodes.now }
    requires entries_size_in_bounds { entries_size ≤ length pairs.old }
    requires index_size_in_bounds { index_size ≤ length index.old }
    ensures { SearchBegun (walked tower.now table.now rows) nodes.now pairs.new index.new }
{
    let x = pair_trial::start(tower, table, rows);
    pair_sets::begin(nodes, x, pairs);
    set_index::begin(pairs, index);
}

// The pairs of a book that lies in `nodes` and of the tower; by rows, of the table for it. By the
// tower's states, the table is not looked at. Answers how many pairs there are, and leaves their graph; or 11
// where they have over 1,000 alternatives, and 20 where one gives over 16.
pub fn explore(
    tower: &[u8],
    table: &[u8],
    rows: bool,
    nodes: &[u8],
    pairs: &mut [u8],
    index: &mut [u8],
    graph: &mut [u8],
    sets: &mut [u8],
    room: &mut [u8],
) -> Result<usize, Refusal>
    requires walkable { Walkable tower.now table.now rows nodes.now }
    requires entries_size_in_bounds { entries_size ≤ length pairs.old }
    requires index_size_in_bounds { index_size ≤ length index.old }
    requires graph_size_in_bounds { graph_size ≤ length graph.old }
    requires sets_size_in_bounds { sets_size ≤ length sets.old }
    requires room_size_in_bounds { room_size ≤ length room.old }
    ensures { Explored result (walked tower.now table.now rows) nodes.now graph.new }
{
    let wide = book_alternatives::two_timed(nodes);
    begin(tower, table, rows, nodes, pairs, index);
    explore_on(
        tower, table, rows, nodes, wide, pairs, index, graph, sets, room,
    )
}

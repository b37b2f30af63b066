// What is seen of a pair in a pass: its tower state, its class, and the class that each action leads to.
#![tactic(auto)]

ghost use Rattle.std.specs.Prelude.{◌<◌, ◌≤◌, ◌≡◌, length};
ghost use Rattle.pair_graph.specs.Steps.{FlaggedGraph};
ghost use Rattle.maker_view.specs.View.{shows_in, same_shows, view_of};
ghost use Rattle.maker_view.specs.View.{Seen, Tells, IsBucket};

// The buckets, and the factor of the hash.
const BUCKETS: usize = 1021;

const FACTOR: usize = 31;

// What action a shows of pair i: the class it leads to plus 1, or 0 where it is not allowed.
fn seen(
    graph: &[u8],
    flags: &[u8],
    pairs: usize,
    actions: usize,
    classes: &[u8],
    i: usize,
    a: usize,
) -> usize
    requires flagged_graph { FlaggedGraph pairs actions graph.now flags.now }
    requires i_lt_pairs { i < pairs }
    requires a_lt_actions { a < actions }
    requires in_bounds { 2000 ≤ length classes.now }
    ensures { Seen result (shows_in graph.now flags.now classes.now i a) }
{
    let Some(j) = pair_graph::allowed(graph, flags, pairs, actions, i, a) else {
        return 0;
    };
    pair_graph::class(classes, j) + 1
}

// Action a shows the same of pairs i and j.
fn same_step(
    graph: &[u8],
    flags: &[u8],
    pairs: usize,
    actions: usize,
    classes: &[u8],
    i: usize,
    j: usize,
    a: usize,
) -> bool
    requires flagged_graph { FlaggedGraph pairs actions graph.now flags.now }
    requires i_lt_pairs { i < pairs }
    requires j_lt_pairs { j < pairs }
    requires a_lt_actions { a < actions }
    requires in_bounds { 2000 ≤ length classes.now }
    ensures { result ≡ same_shows graph.now flags.now classes.now i j a }
{
    seen(graph, flags, pairs, actions, classes, i, a)
        == seen(graph, flags, pairs, actions, classes, j, a)
}

// Pairs i and j look the same: equal state, equal class, and each action shows the same.
pub fn alike(
    graph: &[u8],
    flags: &[u8],
    pairs: usize,
    actions: usize,
    classes: &[u8],
    i: usize,
    j: usize,
) -> bool
    requires flagged_graph { FlaggedGraph pairs actions graph.now flags.now }
    requires i_lt_pairs { i < pairs }
    requires j_lt_pairs { j < pairs }
    requires in_bounds { 2000 ≤ length classes.now }
    ensures { Tells (view_of graph.now flags.now actions classes.now) i j result }
{
    if pair_graph::state(graph, i) != pair_graph::state(graph, j) {
        return false;
    }
    if pair_graph::class(classes, i) != pair_graph::class(classes, j) {
        return false;
    }
    for a in 0..actions {
        if !same_step(graph, flags, pairs, actions, classes, i, j, a) {
            return false;
        }
    }
    true
}

// The bucket of pair i: one and the same for pairs that look the same.
pub fn bucket(
    graph: &[u8],
    flags: &[u8],
    pairs: usize,
    actions: usize,
    classes: &[u8],
    i: usize,
) -> usize
    requires flagged_graph { FlaggedGraph pairs actions graph.now flags.now }
    requires i_lt_pairs { i < pairs }
    requires in_bounds { 2000 ≤ length classes.now }
    ensures { IsBucket (view_of graph.now flags.now actions classes.now) i result }
{
    let state = pair_graph::state(graph, i);
    let mut sum = (state * FACTOR + pair_graph::class(classes, i)) % BUCKETS;
    for next in 0..actions {
        sum = (sum * FACTOR + seen(graph, flags, pairs, actions, classes, i, next)) % BUCKETS;
    }
    sum
}

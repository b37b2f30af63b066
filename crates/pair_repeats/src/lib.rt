// A pair to which two actions lead from a pair that was tried (specs/Repeats.antt): where the same set
// waits of both and they lead to the same state, the move of the earlier one is that of the later one.
#![tactic(auto)]

ghost use Rattle.std.specs.Prelude.{◌<◌, IfSome};
ghost use Rattle.pair_repeats.specs.Repeats.{MovesWritten, LedAlike, LedBefore};

// The pair to which action b leads from pair i, if its state is y and what waits of b is what waits of a. Of
// an action that is not enabled nothing waits, and none of the room is read.
fn move_alike(
    pairs: &[u8],
    graph: &[u8],
    room: &[u8],
    i: usize,
    a: usize,
    b: usize,
    y: usize,
) -> Option<usize>
    requires moves_written { MovesWritten pairs.now graph.now room.now i a }
    requires b_lt_a { b < a }
    ensures { IfSome result (λ j. LedAlike j pairs.now graph.now room.now i a b y) }
{
    let m = pair_graph::move_number(graph, i, b);
    if m < pair_graph::FIRST_PAIR {
        return None;
    }
    if room[pair_trial::PLACES + b] != room[pair_trial::PLACES + a] {
        return None;
    }
    let j = m - pair_graph::FIRST_PAIR;
    if set_index::number(pairs, j) != y {
        return None;
    }
    if room[pair_trial::COUNTS + b] != room[pair_trial::COUNTS + a] {
        return None;
    }
    Some(j)
}

// The pair to which some action before a leads so, if one does.
pub fn led_before(
    pairs: &[u8],
    graph: &[u8],
    room: &[u8],
    i: usize,
    a: usize,
    y: usize,
) -> Option<usize>
    requires { MovesWritten pairs.now graph.now room.now i a }
    ensures { IfSome result (λ j. LedBefore j pairs.now graph.now room.now i a y) }
{
    for b in 0..a {
        if let Some(j) = move_alike(pairs, graph, room, i, a, b, y) {
            return Some(j);
        }
    }
    None
}

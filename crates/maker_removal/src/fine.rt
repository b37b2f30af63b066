// Whether a pair is fine among the safe ones.
ghost use Rattle.std.specs.Prelude.{◌<◌, ◌≡◌};
ghost use Rattle.logic.specs.Tower.{tower_of};
ghost use Rattle.pair_graph.specs.Steps.{move_at, safe_in};
ghost use Rattle.maker_removal.specs.Removal.{leads_inside, not_forced_at, goes_at, none_forced, some_goes, fine_at, PairInput};

// Action a leads from pair i to a safe pair.
fn leads_inside(tower: &[u8], graph: &[u8], n: usize, i: usize, a: usize, flags: &[u8]) -> bool
    requires pair_input { PairInput tower.now n graph.now flags.now i }
    requires a_bound { a < (tower_of tower.now).actions }
    ensures { result ≡ leads_inside (safe_in flags.now) (move_at graph.now i a) }
{
    pair_graph::allowed(graph, flags, n, file_tower::actions(tower), i, a).is_some()
}

// Action a cannot force a way out of the safe pairs from pair i: it may be withheld, is not enabled
// there, or leads to a safe pair.
fn not_forced(tower: &[u8], graph: &[u8], n: usize, i: usize, a: usize, flags: &[u8]) -> bool
    requires pair_input { PairInput tower.now n graph.now flags.now i }
    requires a_bound { a < (tower_of tower.now).actions }
    ensures { result ≡ not_forced_at (tower_of tower.now) graph.now (safe_in flags.now) i a }
{
    if file_kinds::controllable(file_tower::kind(tower, a)) {
        return true;
    }
    if !pair_graph::enabled(graph, i, a) {
        return true;
    }
    leads_inside(tower, graph, n, i, a, flags)
}

// Action a goes on from pair i, and leads to a safe pair.
fn goes(tower: &[u8], graph: &[u8], n: usize, i: usize, a: usize, flags: &[u8]) -> bool
    requires pair_input { PairInput tower.now n graph.now flags.now i }
    requires a_bound { a < (tower_of tower.now).actions }
    ensures { result ≡ goes_at (tower_of tower.now) graph.now (safe_in flags.now) i a }
{
    if !file_kinds::goes_on(file_tower::kind(tower, a)) {
        return false;
    }
    leads_inside(tower, graph, n, i, a, flags)
}

// No action can force a way out of the safe pairs from pair i.
fn none_forced(tower: &[u8], graph: &[u8], n: usize, i: usize, flags: &[u8]) -> bool
    requires { PairInput tower.now n graph.now flags.now i }
    ensures { result ≡ none_forced (tower_of tower.now) graph.now (safe_in flags.now) i }
{
    let actions = file_tower::actions(tower);
    for a in 0..actions {
        if !not_forced(tower, graph, n, i, a, flags) {
            return false;
        }
    }
    true
}

// Some action goes on from pair i inside the safe pairs.
fn some_goes(tower: &[u8], graph: &[u8], n: usize, i: usize, flags: &[u8]) -> bool
    requires { PairInput tower.now n graph.now flags.now i }
    ensures { result ≡ some_goes (tower_of tower.now) graph.now (safe_in flags.now) i }
{
    let actions = file_tower::actions(tower);
    for a in 0..actions {
        if goes(tower, graph, n, i, a, flags) {
            return true;
        }
    }
    false
}

// Pair i is fine among the safe ones.
pub fn is_fine(tower: &[u8], graph: &[u8], n: usize, i: usize, flags: &[u8]) -> bool
    requires { PairInput tower.now n graph.now flags.now i }
    ensures { result ≡ fine_at (tower_of tower.now) graph.now (safe_in flags.now) i }
{
    if !none_forced(tower, graph, n, i, flags) {
        return false;
    }
    some_goes(tower, graph, n, i, flags)
}

// Removal, a phase of the maker (01, 'Good tables'): of the pairs that were met, those from which
// neither a broken rule nor a stop can be forced stay safe, the others go. A pair that goes is put on a
// worklist; when it is taken from there, the pairs with a move to it are looked at again.
#![tactic(auto)]

mod fine;

ghost use Rattle.std.specs.Prelude.{◌+◌, ◌-◌, ◌≤◌, ◌<◌, length};
ghost use Rattle.logic.specs.Tower.{FitTower, tower_of};
ghost use Rattle.area_chains.specs.Chains.{head_in};
ghost use Rattle.pair_graph.specs.Steps.{pair_room, safe_in, HoldsGraph};
ghost use Rattle.pair_graph.specs.Predecessors.{heads_at};
ghost use Rattle.pair_graph.specs.Counting.{count};
ghost use Rattle.maker_removal.specs.Removal.{removal_size, RemovalInput, Worklist, Removing, none_ahead, from, CellAhead};
ghost use Rattle.maker_removal.specs.Removal.{AllSafe, Pushed, Visited, Worked, Removed};

use pair_graph::predecessors;

// The flag of a removed pair that is on the worklist, and of one that was taken from it.
const WAITING: u8 = 2;

const GONE: u8 = 0;

// Where the worklist begins.
const WORKLIST_AT: usize = 35000;

// Leaves the flag 1 at just the pairs of the largest set that are fine among themselves: no action that
// may not be withheld leads out of the set, and some action that counts as going on leads on inside it.
// From every other pair a broken rule or a stop can be forced. The lists of predecessors stay in the area.
pub fn remove(tower: &[u8], graph: &[u8], n: usize, area: &mut [u8])
    requires fit_tower { FitTower tower.now }
    requires holds_graph { HoldsGraph n (tower_of tower.now).actions graph.now }
    requires removal_size_in_bounds { removal_size ≤ length area.old }
    ensures { Removed (tower_of tower.now) n graph.now area.new }
{
    predecessors::list_all(graph, n, file_tower::actions(tower), area);
    begin(n, area);
    let height = visit_all(tower, graph, n, area);
    work_off(tower, graph, n, area, height);
}

// Every pair is safe.
fn begin(n: usize, area: &mut [u8])
    requires { n ≤ length area.old }
    ensures { AllSafe n area.old area.new }
{
    for i in 0..n {
        area[i] = pair_graph::SAFE;
    }
}

// Removes pair i if it is safe and not fine among the safe, and puts it on the worklist. Answers how
// many are on the worklist then.
fn visit(tower: &[u8], graph: &[u8], n: usize, i: usize, area: &mut [u8], height: usize) -> usize
    requires removal_input { RemovalInput tower.now n graph.now area.old }
    requires i_lt_n { i < n }
    requires worklist { Worklist n area.old height }
    ensures { Visited (tower_of tower.now) graph.now i height area.old area.new result }
{
    if !pair_graph::is_safe(area, i) {
        return height;
    }
    if fine::is_fine(tower, graph, n, i, area) {
        return height;
    }
    push(i, area, height);
    height + 1
}

// Removes pair i and puts it on top of the worklist.
fn push(i: usize, area: &mut [u8], height: usize)
    requires i_lt_pair_room { i < pair_room }
    requires height_lt_pair_room { height < pair_room }
    requires removal_size_in_bounds { removal_size ≤ length area.old }
    ensures { Pushed i height area.old area.new }
{
    area[i] = WAITING;
    area_bytes::put_two_bytes(area, WORKLIST_AT + 2 * height, i);
}

// Looks at each pair once, and answers how many are on the worklist then.
fn visit_all(tower: &[u8], graph: &[u8], n: usize, area: &mut [u8]) -> usize
    requires removal_input { RemovalInput tower.now n graph.now area.old }
    requires removing { Removing (tower_of tower.now) n graph.now (from 0) area.old 0 }
    ensures { Removing (tower_of tower.now) n graph.now none_ahead area.new result }
{
    let mut height = 0;
    for next in 0..n {
        height = visit(tower, graph, n, next, area, height);
    }
    height
}

// Takes pairs from the worklist until it is empty.
fn work_off(tower: &[u8], graph: &[u8], n: usize, area: &mut [u8], entries: usize)
    requires removal_input { RemovalInput tower.now n graph.now area.old }
    requires removing { Removing (tower_of tower.now) n graph.now none_ahead area.old entries }
    ensures { Removed (tower_of tower.now) n graph.now area.new }
{
    let mut height = entries;
    while 0 < height {
        height = take_one(tower, graph, n, area, height);
    }
}

// Takes the last pair from the worklist and looks at its predecessors. Answers how many are on the
// worklist then.
fn take_one(tower: &[u8], graph: &[u8], n: usize, area: &mut [u8], height: usize) -> usize
    requires removal_input { RemovalInput tower.now n graph.now area.old }
    requires height_nonzero { 0 < height }
    requires removing { Removing (tower_of tower.now) n graph.now none_ahead area.old height }
    ensures { Worked (tower_of tower.now) n graph.now (count (safe_in area.old) n + (height - 1)) area.new result }
{
    let j = area_bytes::two_bytes(area, WORKLIST_AT + 2 * (height - 1));
    area[j] = GONE;
    visit_predecessors(tower, graph, n, j, area, height - 1)
}

// Looks at each pair with a move to pair j, and answers how many are on the worklist then.
fn visit_predecessors(
    tower: &[u8],
    graph: &[u8],
    n: usize,
    j: usize,
    area: &mut [u8],
    entries: usize,
) -> usize
    requires removal_input { RemovalInput tower.now n graph.now area.old }
    requires j_lt_n { j < n }
    requires removing { Removing (tower_of tower.now) n graph.now (CellAhead (tower_of tower.now).actions graph.now j (head_in heads_at area.old j)) area.old entries }
    ensures { Worked (tower_of tower.now) n graph.now (count (safe_in area.old) n + entries) area.new result }
{
    let mut height = entries;
    let mut at = predecessors::head(area, j);
    while 0 < at {
        let c = at - 1;
        at = predecessors::link(area, c);
        height = visit(tower, graph, n, predecessors::pair_of(c), area, height);
    }
    height
}

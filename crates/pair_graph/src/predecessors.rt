// For each pair the list of the cells whose moves lead to it (specs/Predecessors.antt), in a lent area:
// whoever removes or splits pairs finds there what else it concerns.
ghost use Rattle.std.specs.Prelude.{◌+◌, ◌*◌, ◌/◌, ◌<◌, ◌≤◌, ◌≡◌, length};
ghost use Rattle.area_chains.specs.Chains.{head_in, link_in};
ghost use Rattle.pair_graph.specs.Steps.{pair_room, action_room, HoldsGraph};
ghost use Rattle.pair_graph.specs.Predecessors.{heads_at, links_at, lists_end, Listed};

// Where the heads and the links begin.
const HEADS_AT: usize = 1000;

const LINKS_AT: usize = 3000;

// The last cell of the list of pair j plus 1, or 0.
pub fn head(area: &[u8], j: usize) -> usize
    requires lists_end_in_bounds { lists_end ≤ length area.now }
    requires j_lt_pair_room { j < pair_room }
    ensures { result ≡ head_in heads_at area.now j }
{
    area_chains::head(area, HEADS_AT, j)
}

// The cell before cell c in its list plus 1, or 0.
pub fn link(area: &[u8], c: usize) -> usize
    requires lists_end_in_bounds { lists_end ≤ length area.now }
    requires c_bound { c < action_room * pair_room }
    ensures { result ≡ link_in links_at area.now c }
{
    area_chains::link(area, LINKS_AT, c)
}

// The pair of cell c.
pub fn pair_of(c: usize) -> usize
    ensures { result ≡ c / action_room }
{
    c / super::ACTION_ROOM
}

// Makes the lists of n pairs. What else lay in the area is cleared.
pub fn list_all(graph: &[u8], n: usize, actions: usize, area: &mut [u8])
    requires holds_graph { HoldsGraph n actions graph.now }
    requires lists_end_in_bounds { lists_end ≤ length area.old }
    ensures { Listed n actions graph.now (action_room * n) area.new }
{
    area_bytes::clear(area);
    for i in 0..n {
        list_pair(graph, n, actions, i, area);
    }
}

// Puts the cells of pair i into the lists.
fn list_pair(graph: &[u8], n: usize, actions: usize, i: usize, area: &mut [u8])
    requires holds_graph { HoldsGraph n actions graph.now }
    requires lists_end_in_bounds { lists_end ≤ length area.old }
    requires i_lt_n { i < n }
    requires listed { Listed n actions graph.now (action_room * i) area.old }
    ensures { Listed n actions graph.now (action_room * (i + 1)) area.new }
{
    for a in 0..actions {
        list_cell(graph, n, actions, i, a, area);
    }
}

// Puts the cell of action a from pair i at the head of the list of the pair that it leads to.
fn list_cell(graph: &[u8], n: usize, actions: usize, i: usize, a: usize, area: &mut [u8])
    requires holds_graph { HoldsGraph n actions graph.now }
    requires lists_end_in_bounds { lists_end ≤ length area.old }
    requires i_lt_n { i < n }
    requires a_lt_actions { a < actions }
    requires listed { Listed n actions graph.now (action_room * i + a) area.old }
    ensures { Listed n actions graph.now (action_room * i + (a + 1)) area.new }
{
    let m = super::move_number(graph, i, a);
    if m < super::FIRST_PAIR {
        return;
    }
    area_chains::add(
        area,
        HEADS_AT,
        LINKS_AT,
        m - super::FIRST_PAIR,
        super::ACTION_ROOM * i + a,
    );
}

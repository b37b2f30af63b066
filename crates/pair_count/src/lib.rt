// How many pairs a tower and a book have, each counted once for each of its alternatives, told beside a
// table that was made: the maker's own search, run again. It is proved to be safe; the number itself is
// that of the search.
#![tactic(auto)]

ghost use Rattle.std.specs.Prelude.{◌≤◌, length};
ghost use Rattle.logic.specs.Tower.{FitTower};
ghost use Rattle.book_alternatives.specs.Offers.{sets_size};
ghost use Rattle.set_index.specs.Entries.{entries_size, index_size};
ghost use Rattle.pair_graph.specs.Steps.{graph_size};
ghost use Rattle.pair_trial.specs.Walked.{TowerWithBook};
ghost use Rattle.pair_trial.specs.Trial.{room_size};

// The pairs are those of the tower, not of a table's rows.
const BY_ROWS: bool = false;

// The pairs of a book that was read, or 0 if there are too many, or a step gives too many alternatives.
// The alternatives of n pairs end where those of pair n would begin.
fn search(
    tower: &[u8],
    nodes: &[u8],
    pairs: &mut [u8],
    index: &mut [u8],
    graph: &mut [u8],
    sets: &mut [u8],
    room: &mut [u8],
) -> usize
    requires tower_with_book { TowerWithBook tower.now nodes.now }
    requires entries_size_in_bounds { entries_size ≤ length pairs.old }
    requires index_size_in_bounds { index_size ≤ length index.old }
    requires graph_size_in_bounds { graph_size ≤ length graph.old }
    requires sets_size_in_bounds { sets_size ≤ length sets.old }
    requires room_size_in_bounds { room_size ≤ length room.old }
{
    let found = pair_search::explore(
        tower, tower, BY_ROWS, nodes, pairs, index, graph, sets, room,
    );
    match found {
        Ok(n) => set_index::first(pairs, n),
        Err(_) => 0,
    }
}

// The same with areas of its own.
fn search_here(tower: &[u8], nodes: &[u8]) -> usize
    requires { TowerWithBook tower.now nodes.now }
{
    let mut pairs = [0u8; 64968];
    let mut index = [0u8; 8192];
    let mut graph = [0u8; 34000];
    let mut sets = [0u8; 59520];
    let mut room = [0u8; 30752];
    search(
        tower, nodes, &mut pairs, &mut index, &mut graph, &mut sets, &mut room,
    )
}

// The pairs of a fit tower and a book, or 0 if the book is refused.
fn of_book(tower: &[u8], text: &[u8], nodes: &mut [u8]) -> usize
    requires fit_tower { FitTower tower.now }
    requires in_bounds { 512 ≤ length nodes.old }
{
    match book_reader::read_lines(file_tower::marks(tower), text, nodes) {
        Ok(_) => search_here(tower, nodes),
        Err(_) => 0,
    }
}

// How many pairs a tower and a book have, each counted once for each alternative; 0 if one of them is
// refused, there are too many, or a step gives too many alternatives.
pub fn pairs(tower: &[u8], text: &[u8]) -> usize {
    let Ok(()) = file_tower::read_tower(tower) else {
        return 0;
    };
    let mut nodes = [0u8; 512];
    of_book(tower, text, &mut nodes)
}

// The three files examined (01, 'Good tables' and 'Why a call is turned down'): whether a table is good
// for a tower and a book, or the first reason why not, in the order tower, book, 13, 14 a, 14 b to d by
// row, 11, 20, 14 e. With e comes the first broken step, and the graph of the pairs is left in its area.
// It stands on the definitions, and on nothing of the maker's.
#![tactic(auto)]

ghost use Rattle.std.specs.Prelude.{◌≤◌, ◌<◌, ◌≡◌, length};
ghost use Rattle.logic.specs.Tower.{FitTower, tower_of};
ghost use Rattle.outcome.specs.Areas.{pairs_area, index_area, graph_area, sets_area, room_area};
ghost use Rattle.pair_graph.specs.Steps.{graph_size, pair_room, action_room, HoldsGraph};
ghost use Rattle.pair_trial.specs.Walked.{TowerWithBook};
ghost use Rattle.search_areas.specs.Lent.{Room};
ghost use Rattle.checker_runs.specs.Breaks.{broken_at, FirstAction};
ghost use Rattle.checker_runs.specs.Examining.{Searched, FoundExamined, TableExamined, Examines};

use base::{Refusal, Rejection};

// 14 e: how many pairs there are, and the first broken step: the lowest pair from which one is, and the lowest
// action by which it is.
#[derive(Clone, Copy, PartialEq, Eq)]
pub struct BrokenStep {
    pub pairs: usize,
    pub pair: usize,
    pub action: usize,
}

// What is found of the three files: no broken step, the first one, or why that is not asked: a refusal, or a reason
// from a to d.
pub type Examined = Result<Option<BrokenStep>, Rejection>;

// Action a makes a broken step from pair i.
fn broken_at(graph: &[u8], i: usize, a: usize) -> bool
    requires graph_size_in_bounds { graph_size ≤ length graph.now }
    requires i_lt_pair_room { i < pair_room }
    requires a_lt_action_room { a < action_room }
    ensures { result ≡ broken_at graph.now i a }
{
    pair_graph::move_number(graph, i, a) == pair_graph::BROKEN
}

// The lowest action that makes a broken step from pair i, if one does.
fn first_broken_action(graph: &[u8], actions: usize, i: usize) -> Option<usize>
    requires graph_size_in_bounds { graph_size ≤ length graph.now }
    requires actions_le_action_room { actions ≤ action_room }
    requires i_lt_pair_room { i < pair_room }
    ensures { FirstAction result graph.now actions i }
{
    for a in 0..actions {
        if broken_at(graph, i, a) {
            return Some(a);
        }
    }
    None
}

// The steps of n rows with what is pending, whose graph is there: 14 e with the first broken one, or good.
fn examine_steps(tower: &[u8], graph: &[u8], n: usize) -> Examined
    requires fit_tower { FitTower tower.now }
    requires holds_graph { HoldsGraph n (tower_of tower.now).actions graph.now }
    ensures { FoundExamined graph.now (tower_of tower.now).actions (Ok n) result }
{
    let actions = file_tower::actions(tower);
    for i in 0..n {
        if let Some(action) = first_broken_action(graph, actions, i) {
            return Ok(Some(BrokenStep {
                pairs: n,
                pair: i,
                action,
            }));
        }
    }
    Ok(None)
}

// How the search for pairs ended, whose graph is there: 11, 20, 14 e, or good.
fn examine_found(tower: &[u8], graph: &[u8], found: Result<usize, Refusal>) -> Examined
    requires fit_tower { FitTower tower.now }
    requires searched { Searched found (tower_of tower.now).actions graph.now }
    ensures { FoundExamined graph.now (tower_of tower.now).actions found result }
{
    examine_steps(tower, graph, found?)
}

// The table, where tower and book are read: 13, 14 a to d, and then the runs that it allows.
fn examine_table(
    tower: &[u8],
    table: &[u8],
    nodes: &[u8],
    pairs: &mut [u8],
    index: &mut [u8],
    graph: &mut [u8],
    sets: &mut [u8],
    room: &mut [u8],
) -> Examined
    requires tower_with_book { TowerWithBook tower.now nodes.now }
    requires pairs_area_in_bounds { pairs_area ≤ length pairs.old }
    requires index_area_in_bounds { index_area ≤ length index.old }
    requires graph_area_in_bounds { graph_area ≤ length graph.old }
    requires sets_area_in_bounds { sets_area ≤ length sets.old }
    requires room_area_in_bounds { room_area ≤ length room.old }
    ensures { TableExamined result tower.now table.now nodes.now graph.new }
{
    checker_files::test_table(tower, table)?;
    let found = pair_search::explore(tower, table, true, nodes, pairs, index, graph, sets, room);
    examine_found(tower, graph, found)
}

// The three files: tower, book, table. The six areas are lent, and left as they are where the work ends.
pub fn examine(
    tower: &[u8],
    text: &[u8],
    table: &[u8],
    nodes: &mut [u8],
    pairs: &mut [u8],
    index: &mut [u8],
    graph: &mut [u8],
    sets: &mut [u8],
    room: &mut [u8],
) -> Examined
    requires { Room nodes.old pairs.old index.old graph.old sets.old room.old }
    ensures { Examines result tower.now text.now table.now nodes.new graph.new }
{
    file_tower::read_tower(tower)?;
    book_reader::read_lines(file_tower::marks(tower), text, nodes)?;
    examine_table(tower, table, nodes, pairs, index, graph, sets, room)
}

// The entry that shows why a table is not good (02, item 4). The checker's own answer; and where that is
// 14 e, a shortest allowed run that is broken, in a lent list, with the lowest line that it breaks and
// the position. It stands on what the checker stands on (crate `checker_runs`), and lends its areas on:
// once the graph of pairs is there, the index keeps how each was first met, the room the states along
// the run, the index then the marks there, and the pairs what is kept of it.
#![tactic(auto)]

ghost use Rattle.std.specs.Prelude.{◌≤◌, length};
ghost use Rattle.outcome.specs.Areas.{pairs_area, index_area, room_area};
ghost use Rattle.search_areas.specs.Lent.{Room};
ghost use Rattle.why.specs.Showing.{ToldBrokenSome, ShowsRun, ShowsFiles, Explains};

use base::{BrokenRun, Refusal, Rejection, WhyAnswer};

// The run over pair i of n and broken by action a, its line and its position; 16 if the list is too
// short for it.
fn show_run(
    tower: &[u8],
    list: &mut [u8],
    nodes: &[u8],
    pairs: &mut [u8],
    index: &mut [u8],
    graph: &[u8],
    room: &mut [u8],
    n: usize,
    i: usize,
    a: usize,
) -> WhyAnswer
    requires told_broken_some { ToldBrokenSome tower.now nodes.now graph.now n i a }
    requires pairs_area_in_bounds { pairs_area ≤ length pairs.old }
    requires index_area_in_bounds { index_area ≤ length index.old }
    requires room_area_in_bounds { room_area ≤ length room.old }
    ensures { ShowsRun result tower.now nodes.now graph.now n i a list.old list.new }
{
    let actions = file_tower::actions(tower);
    let Some(length) = why_path::write_run(graph, n, actions, i, a, index, list) else {
        return Err(Rejection::Refused(Refusal::Output));
    };
    let place = why_lines::judge(tower, nodes, list, length, room, index, pairs);
    Ok(Some(BrokenRun {
        length,
        line: place.line,
        position: place.position.0,
    }))
}

// The three files: the checker's own answer, or the run.
fn show_files(
    tower: &[u8],
    text: &[u8],
    table: &[u8],
    list: &mut [u8],
    nodes: &mut [u8],
    pairs: &mut [u8],
    index: &mut [u8],
    graph: &mut [u8],
    sets: &mut [u8],
    room: &mut [u8],
) -> WhyAnswer
    requires { Room nodes.old pairs.old index.old graph.old sets.old room.old }
    ensures { ShowsFiles result tower.now text.now table.now list.old list.new }
{
    let found = checker_runs::examine(tower, text, table, nodes, pairs, index, graph, sets, room)?;
    let Some(step) = found else {
        return Ok(None);
    };
    show_run(
        tower,
        list,
        nodes,
        pairs,
        index,
        graph,
        room,
        step.pairs,
        step.pair,
        step.action,
    )
}

// Why the table is not good for the tower and the book, with the run in the front of the list where one
// is shown; its later bytes stay, and with any other answer all of it. The six areas are lent: 15 leaves
// them as they are, and after every other answer they are zero.
pub fn show(
    tower: &[u8],
    text: &[u8],
    table: &[u8],
    list: &mut [u8],
    nodes: &mut [u8],
    pairs: &mut [u8],
    index: &mut [u8],
    graph: &mut [u8],
    sets: &mut [u8],
    room: &mut [u8],
) -> WhyAnswer
    ensures { Explains result tower.now text.now table.now list.old nodes.old pairs.old index.old graph.old sets.old room.old list.new nodes.new pairs.new index.new graph.new sets.new room.new }
{
    if !search_areas::long_enough(nodes, pairs, index, graph, sets, room) {
        return Err(Rejection::Refused(Refusal::Area));
    }
    let answer = show_files(
        tower, text, table, list, nodes, pairs, index, graph, sets, room,
    );
    search_areas::clear(nodes, pairs, index, graph, sets, room);
    answer
}

// The checker (01, 'Good tables' and 'Why a call is turned down'): whether a table is good for a
// tower and a book, or the first reason why not, in the order 15, tower, book, 13, 14 a, 14 b to d by
// row, 11, 20, 14 e. It stands on the definitions, and on nothing of the maker's.
#![tactic(auto)]

ghost use Rattle.std.specs.Prelude.{◌≡◌};
ghost use Rattle.checker_runs.specs.Examining.{verdict_of};
ghost use Rattle.checker.specs.Checking.{Checks};

use base::{Reason, Refusal, Rejection, Verdict};
use checker_runs::Examined;

// The answer by what is found of the three files.
fn answer(found: Examined) -> Verdict
    ensures { result ≡ verdict_of found }
{
    match found? {
        None => Ok(()),
        Some(_) => Err(Rejection::NotGood(Reason::Broken)),
    }
}

// Whether the table is good for the tower and the book, or the first reason why not. The six areas
// are lent: 15 leaves them as they are, and after every other answer they are zero.
pub fn check(
    tower: &[u8],
    text: &[u8],
    table: &[u8],
    nodes: &mut [u8],
    pairs: &mut [u8],
    index: &mut [u8],
    graph: &mut [u8],
    sets: &mut [u8],
    room: &mut [u8],
) -> Verdict
    ensures { Checks result tower.now text.now table.now nodes.old pairs.old index.old graph.old sets.old room.old nodes.new pairs.new index.new graph.new sets.new room.new }
{
    if !search_areas::long_enough(nodes, pairs, index, graph, sets, room) {
        return Err(Rejection::Refused(Refusal::Area));
    }
    let found = checker_runs::examine(tower, text, table, nodes, pairs, index, graph, sets, room);
    search_areas::clear(nodes, pairs, index, graph, sets, room);
    answer(found)
}

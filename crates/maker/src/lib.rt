// The maker (01, 'Good tables' and 'Why a call is turned down'): the made table for a tower and a
// book, written to the output, or the first reason why there is none, in the order 15, tower, book, 11,
// 20, 12, 16.
#![tactic(auto)]

ghost use Rattle.outcome.specs.Make.{made_file};
ghost use Rattle.pair_trial.specs.Walked.{TowerWithBook};
ghost use Rattle.maker_areas.specs.Lent.{Room};
ghost use Rattle.maker_rows.specs.Rows.{Ends};
ghost use Rattle.maker.specs.Making.{TableMade, Makes};

use base::{MakeAnswer, Refusal};

// The pairs are those of the tower, not of a table's rows.
const ROWS: bool = false;

// The table, where tower and book are read: 11, 20, 12, 16, or made. Once the pairs are met the room of the search is free for the
// marks of the passes.
fn make_table(
    tower: &[u8],
    nodes: &[u8],
    out: &mut [u8],
    pairs: &mut [u8],
    index: &mut [u8],
    graph: &mut [u8],
    sets: &mut [u8],
    room: &mut [u8],
    flags: &mut [u8],
    classes: &mut [u8],
) -> MakeAnswer
    requires tower_with_book { TowerWithBook tower.now nodes.now }
    requires room { Room nodes.now pairs.old index.old graph.old sets.old room.old flags.old classes.old }
    ensures { TableMade result tower.now nodes.now out.old out.new }
{
    let n = pair_search::explore(tower, tower, ROWS, nodes, pairs, index, graph, sets, room)?;
    maker_rows::make_rows(tower, out, graph, flags, classes, room, n)
}

// The two files: tower, book; and the table.
fn make_files(
    tower: &[u8],
    text: &[u8],
    out: &mut [u8],
    nodes: &mut [u8],
    pairs: &mut [u8],
    index: &mut [u8],
    graph: &mut [u8],
    sets: &mut [u8],
    room: &mut [u8],
    flags: &mut [u8],
    classes: &mut [u8],
) -> MakeAnswer
    requires { Room nodes.old pairs.old index.old graph.old sets.old room.old flags.old classes.old }
    ensures { Ends (made_file tower.now text.now) out.old result out.new }
{
    file_tower::read_tower(tower)?;
    book_reader::read_lines(file_tower::marks(tower), text, nodes)?;
    make_table(
        tower, nodes, out, pairs, index, graph, sets, room, flags, classes,
    )
}

// Writes the made table for the tower and the book to the output and answers its length, or the first
// reason why not; a refusal leaves the output as it is. The eight areas are lent: 15 leaves them as they
// are, and after every other answer they are zero.
pub fn make(
    tower: &[u8],
    text: &[u8],
    out: &mut [u8],
    nodes: &mut [u8],
    pairs: &mut [u8],
    index: &mut [u8],
    graph: &mut [u8],
    sets: &mut [u8],
    room: &mut [u8],
    flags: &mut [u8],
    classes: &mut [u8],
) -> MakeAnswer
    ensures { Makes result tower.now text.now out.old nodes.old pairs.old index.old graph.old sets.old room.old flags.old classes.old out.new nodes.new pairs.new index.new graph.new sets.new room.new flags.new classes.new }
{
    if !maker_areas::long_enough(nodes, pairs, index, graph, sets, room, flags, classes) {
        return Err(Refusal::Area);
    }
    let answer = make_files(
        tower, text, out, nodes, pairs, index, graph, sets, room, flags, classes,
    );
    maker_areas::clear(nodes, pairs, index, graph, sets, room, flags, classes);
    answer
}

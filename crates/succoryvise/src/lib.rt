// The interface for C and Rust: the entries, with answers as numbers; succoryvise_c exports them. None
// of them requires anything of its caller but slices that are memory: `&[u8]` is a pointer and a length.
// What each answers and leaves in its areas is an equation with the definitions of `outcome`. The names
// of the entries end in the version, so that a caller that was compiled for another one does not link.
#![tactic(auto)]

ghost use Rattle.std.specs.Prelude.{◌≡◌};
ghost use Rattle.base.specs.Answers.{follow_said, log_said};
ghost use Rattle.outcome.specs.Follow.{follow_outcome};
ghost use Rattle.outcome.specs.Log.{log_outcome};
ghost use Rattle.answer_numbers.specs.Shown.{shown};
ghost use Rattle.succoryvise.specs.Entries.{BookShown, MakeShown, CheckShown, WhyShown};
ghost use Rattle.succoryvise.specs.Version.{interface_version};

use answer_numbers::Answer;

// The version of this interface.
const VERSION: u32 = 2;

// The version of this interface, for those who look functions up by name and do not link them.
pub fn succoryvise_version() -> u32
    ensures { result ≡ interface_version }
{
    VERSION
}

// Reads a rule book under P marks: the numbers of its lines and nodes, or why it is turned down.
// Refused with 15 it changes nothing; else the lent area is all zero afterwards.
pub fn succoryvise_read_book_v2(marks: usize, text: &[u8], nodes: &mut [u8]) -> Answer
    ensures { BookShown result marks text.now nodes.old nodes.new }
{
    answer_numbers::of_book(book_reader::read_book(marks, text, nodes))
}

// Makes the table for the tower and the book, and writes it to the front of `out`: its length in
// bytes, or why there is none. A refusal changes no byte of `out`, and bytes behind the table stay.
// Refused with 15 it changes nothing; else the lent areas are all zero afterwards.
pub fn succoryvise_make_v2(
    tower: &[u8],
    text: &[u8],
    out: &mut [u8],
    nodes: &mut [u8],
    pairs: &mut [u8],
    index: &mut [u8],
    graph: &mut [u8],
    sets: &mut [u8],
    room: &mut [u8],
    flags: &mut [u8],
    classes: &mut [u8],
) -> Answer
    ensures { MakeShown result tower.now text.now out.old nodes.old pairs.old index.old graph.old sets.old room.old flags.old classes.old out.new nodes.new pairs.new index.new graph.new sets.new room.new flags.new classes.new }
{
    let made = maker::make(
        tower, text, out, nodes, pairs, index, graph, sets, room, flags, classes,
    );
    answer_numbers::of_make(made)
}

// Whether the table is good for the tower and the book, or the first reason why not. Refused with
// 15 it changes nothing; else the lent areas are all zero afterwards.
pub fn succoryvise_check_v2(
    tower: &[u8],
    text: &[u8],
    table: &[u8],
    nodes: &mut [u8],
    pairs: &mut [u8],
    index: &mut [u8],
    graph: &mut [u8],
    sets: &mut [u8],
    room: &mut [u8],
) -> Answer
    ensures { CheckShown result tower.now text.now table.now nodes.old pairs.old index.old graph.old sets.old room.old nodes.new pairs.new index.new graph.new sets.new room.new }
{
    let verdict = checker::check(tower, text, table, nodes, pairs, index, graph, sets, room);
    answer_numbers::of_check(verdict)
}

// The row that an action leads to from a row of the table, or why there is none.
pub fn succoryvise_follow_v2(table: &[u8], row: usize, action: usize) -> Answer
    ensures { result ≡ shown (follow_said (follow_outcome table.now row action)) }
{
    answer_numbers::of_follow(follower::follow(table, row, action))
}

// What a log comes to along the table: 0 and the final row, or 1 and the number of the first line that
// does not fit; or why it was not read.
pub fn succoryvise_read_log_v2(tower: &[u8], table: &[u8], log: &[u8]) -> Answer
    ensures { result ≡ shown (log_said (log_outcome tower.now table.now log.now)) }
{
    answer_numbers::of_log(log_reader::read_log(tower, table, log))
}

// Why the table is not good for the tower and the book. Where it is turned down with 14 e: the length
// of a shortest allowed run that is broken, which is written to the front of `list` while its later
// bytes stay, the lowest line that it breaks, and the position; or 16 if the list is shorter. In every
// other case the checker's own answer, and the list as it was. Refused with 15 it changes nothing; else
// the lent areas are all zero afterwards.
pub fn succoryvise_why_v2(
    tower: &[u8],
    text: &[u8],
    table: &[u8],
    list: &mut [u8],
    nodes: &mut [u8],
    pairs: &mut [u8],
    index: &mut [u8],
    graph: &mut [u8],
    sets: &mut [u8],
    room: &mut [u8],
) -> Answer
    ensures { WhyShown result tower.now text.now table.now list.old nodes.old pairs.old index.old graph.old sets.old room.old list.new nodes.new pairs.new index.new graph.new sets.new room.new }
{
    let shows = why::show(
        tower, text, table, list, nodes, pairs, index, graph, sets, room,
    );
    answer_numbers::of_why(shows)
}

// The entries as the archive for C and Rust exports them: each calls the one of its name in succoryvise, and promises what
// that one promises.
#![tactic(auto)]

ghost use Rattle.std.specs.Prelude.{◌≡◌};
ghost use Rattle.base.specs.Answers.{follow_said, log_said};
ghost use Rattle.outcome.specs.Follow.{follow_outcome};
ghost use Rattle.outcome.specs.Log.{log_outcome};
ghost use Rattle.answer_numbers.specs.Shown.{shown};
ghost use Rattle.succoryvise.specs.Entries.{BookShown, MakeShown, CheckShown, WhyShown};
ghost use Rattle.succoryvise.specs.Version.{interface_version};

use answer_numbers::Answer;

// The version of this interface, for those who look functions up by name and do not link them.
#[unsafe(no_mangle)]
pub extern "C" fn succoryvise_version() -> u32
    ensures { result ≡ interface_version }
{
    succoryvise::succoryvise_version()
}

// Reads a rule book under P marks: the numbers of its lines and nodes, or why it is turned down.
// Refused with 15 it changes nothing; else the lent area is all zero afterwards.
#[unsafe(no_mangle)]
pub extern "C" fn succoryvise_read_book_v2(marks: usize, text: &[u8], nodes: &mut [u8]) -> Answer
    ensures { BookShown result marks text.now nodes.old nodes.new }
{
    succoryvise::succoryvise_read_book_v2(marks, text, nodes)
}

// Makes the table for the tower and the book, and writes it to the front of `out`: its length in
// bytes, or why there is none. A refusal changes no byte of `out`, and bytes behind the table stay.
// Refused with 15 it changes nothing; else the lent areas are all zero afterwards.
#[unsafe(no_mangle)]
pub extern "C" fn succoryvise_make_v2(
    tower: &[u8],
    text: &[u8],
    out: &mut [u8],
    nodes: &mut [u8],
    pairs: &mut [u8],
    index: &mut [u8],
    graph: &mut [u8],
    sets: &mut [u8],
    room: &mut [u8],
    flags: &mut [u8],
    classes: &mut [u8],
) -> Answer
    ensures { MakeShown result tower.now text.now out.old nodes.old pairs.old index.old graph.old sets.old room.old flags.old classes.old out.new nodes.new pairs.new index.new graph.new sets.new room.new flags.new classes.new }
{
    succoryvise::succoryvise_make_v2(
        tower, text, out, nodes, pairs, index, graph, sets, room, flags, classes,
    )
}

// Whether the table is good for the tower and the book, or the first reason why not. Refused with
// 15 it changes nothing; else the lent areas are all zero afterwards.
#[unsafe(no_mangle)]
pub extern "C" fn succoryvise_check_v2(
    tower: &[u8],
    text: &[u8],
    table: &[u8],
    nodes: &mut [u8],
    pairs: &mut [u8],
    index: &mut [u8],
    graph: &mut [u8],
    sets: &mut [u8],
    room: &mut [u8],
) -> Answer
    ensures { CheckShown result tower.now text.now table.now nodes.old pairs.old index.old graph.old sets.old room.old nodes.new pairs.new index.new graph.new sets.new room.new }
{
    succoryvise::succoryvise_check_v2(tower, text, table, nodes, pairs, index, graph, sets, room)
}

// The row that an action leads to from a row of the table, or why there is none.
#[unsafe(no_mangle)]
pub extern "C" fn succoryvise_follow_v2(table: &[u8], row: usize, action: usize) -> Answer
    ensures { result ≡ shown (follow_said (follow_outcome table.now row action)) }
{
    succoryvise::succoryvise_follow_v2(table, row, action)
}

// What a log comes to along the table: 0 and the final row, or 1 and the number of the first line that
// does not fit; or why it was not read.
#[unsafe(no_mangle)]
pub extern "C" fn succoryvise_read_log_v2(tower: &[u8], table: &[u8], log: &[u8]) -> Answer
    ensures { result ≡ shown (log_said (log_outcome tower.now table.now log.now)) }
{
    succoryvise::succoryvise_read_log_v2(tower, table, log)
}

// Why the table is not good for the tower and the book. Where it is turned down with 14 e: the length
// of a shortest allowed run that is broken, which is written to the front of `list` while its later
// bytes stay, the lowest line that it breaks, and the position; or 16 if the list is shorter. In every
// other case the checker's own answer, and the list as it was. Refused with 15 it changes nothing; else
// the lent areas are all zero afterwards.
#[unsafe(no_mangle)]
pub extern "C" fn succoryvise_why_v2(
    tower: &[u8],
    text: &[u8],
    table: &[u8],
    list: &mut [u8],
    nodes: &mut [u8],
    pairs: &mut [u8],
    index: &mut [u8],
    graph: &mut [u8],
    sets: &mut [u8],
    room: &mut [u8],
) -> Answer
    ensures { WhyShown result tower.now text.now table.now list.old nodes.old pairs.old index.old graph.old sets.old room.old list.new nodes.new pairs.new index.new graph.new sets.new room.new }
{
    succoryvise::succoryvise_why_v2(
        tower, text, table, list, nodes, pairs, index, graph, sets, room,
    )
}

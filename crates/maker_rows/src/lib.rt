// From the pairs that were met to the table: those from which no break and no stop can be forced, which of
// them make one row, and the file.
#![tactic(auto)]

ghost use Rattle.std.specs.Prelude.{◌<◌, ◌≡◌, length};
ghost use Rattle.pair_graph.specs.Steps.{safe_in};
ghost use Rattle.maker_rows.specs.Rows.{PairsMet, PairsSafe, SafeWritten, RowsMade};

use base::{MakeAnswer, Refusal};

// The first pair is safe.
fn first_safe(flags: &[u8]) -> bool
    requires { 0 < length flags.now }
    ensures { result ≡ safe_in flags.now 0 }
{
    pair_graph::is_safe(flags, 0)
}

// The table of the safe pairs, written: 16, or made.
fn write_safe(
    tower: &[u8],
    out: &mut [u8],
    graph: &[u8],
    flags: &[u8],
    classes: &mut [u8],
    marks: &mut [u8],
    n: usize,
) -> MakeAnswer
    requires { PairsSafe tower.now graph.now flags.now classes.old marks.old n }
    ensures { SafeWritten result tower.now graph.now flags.now n out.old out.new }
{
    let states = file_tower::states(tower);
    let actions = file_tower::actions(tower);
    maker_classes::classify(graph, flags, actions, n, classes, marks);
    let layout = file_layout::layout_of(tower);
    let written = maker_file::write_table(graph, flags, classes, out, layout, n, states, actions);
    written.ok_or(Refusal::Output)
}

// The table of n pairs that were met: 12, 16, or made.
pub fn make_rows(
    tower: &[u8],
    out: &mut [u8],
    graph: &[u8],
    flags: &mut [u8],
    classes: &mut [u8],
    marks: &mut [u8],
    n: usize,
) -> MakeAnswer
    requires { PairsMet tower.now graph.now flags.old classes.old marks.old n }
    ensures { RowsMade result tower.now graph.now n out.old out.new }
{
    maker_removal::remove(tower, graph, n, flags);
    if !first_safe(flags) {
        return Err(Refusal::NoTable);
    }
    write_safe(tower, out, graph, flags, classes, marks, n)
}

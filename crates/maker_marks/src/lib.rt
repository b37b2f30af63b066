// Which pairs are looked at again in the next pass: those with a step to a pair that the last pass gave
// another class, and those whose class has such a first pair. All others look as they looked, and so does
// the first of their class.
#![tactic(auto)]

ghost use Rattle.std.specs.Prelude.{◌+◌, ◌*◌, ◌<◌, ◌≤◌, ◌≡◌, length};
ghost use Rattle.std.proofs.lemmas.List.Edits.{sets};
ghost use Rattle.base.specs.Bytes.{number_bytes};
ghost use Rattle.pair_graph.specs.Steps.{pair_room, class_in};
ghost use Rattle.maker_marks.specs.Marks.{list_at, marks_size, marked_in, noted_in, ListedGraph, ReadyToMark, SafeMarked, MarkedAgain};
ghost use Rattle.maker_marks.specs.Marks.{Unmarked, PairMarked, MarkedBefore, MarkedBeforeAll, ReadyForFirsts, MarkedWithFirst, MarkedWithFirsts};

use pair_graph::predecessors;

// Where the list begins, and the byte that says that a first pair of a class is marked.
const LIST_AT: usize = 1000;

const FIRST_AT: usize = 3000;

const MARKED: u8 = 1;

// Where more than one pair in so many is on the list, all safe pairs are looked at again.
const MANY: usize = 16;

// Pair i is marked.
pub fn is_marked(marks: &[u8], i: usize) -> bool
    requires { i < length marks.now }
    ensures { result ≡ marked_in marks.now i }
{
    marks[i] == MARKED
}

// Entry p of the list.
pub fn noted(marks: &[u8], p: usize) -> usize
    requires p_lt_pair_room { p < pair_room }
    requires marks_size_in_bounds { marks_size ≤ length marks.now }
    ensures { result ≡ noted_in marks.now p }
{
    area_bytes::two_bytes(marks, LIST_AT + 2 * p)
}

// Writes pair i as entry p of the list.
pub fn note(marks: &mut [u8], p: usize, i: usize)
    requires p_lt_pair_room { p < pair_room }
    requires marks_size_in_bounds { marks_size ≤ length marks.old }
    ensures { marks.new ≡ sets marks.old (list_at + 2 * p) (number_bytes 2 i) }
{
    area_bytes::put_two_bytes(marks, LIST_AT + 2 * p, i);
}

// Marks the safe pairs, and no others.
pub fn mark_safe(flags: &[u8], n: usize, marks: &mut [u8])
    requires n_in_bounds { n ≤ length flags.now }
    requires n_in_bounds_2 { n ≤ length marks.old }
    ensures { SafeMarked n flags.now marks.new }
{
    for i in 0..n {
        marks[i] = flags[i];
    }
}

// Marks the pairs that are looked at again, where the list has so many entries.
pub fn mark_again(
    graph: &[u8],
    flags: &[u8],
    actions: usize,
    n: usize,
    classes: &[u8],
    marks: &mut [u8],
    entries: usize,
)
    requires { ReadyToMark n actions graph.now flags.now classes.now marks.old entries }
    ensures { MarkedAgain n actions graph.now flags.now classes.now marks.old entries marks.new }
{
    if n < MANY * entries {
        mark_safe(flags, n, marks);
        return;
    }
    unmark_all(marks);
    mark_before_all(graph, flags, actions, n, classes, marks, entries);
    mark_with_firsts(flags, n, classes, marks);
}

// No pair is marked, and the list is as it was.
fn unmark_all(marks: &mut [u8])
    requires { marks_size ≤ length marks.old }
    ensures { Unmarked marks.old marks.new }
{
    area_bytes::clear(&mut marks[..LIST_AT]);
    marks[FIRST_AT] = 0;
}

// Marks the safe pairs with a move to a pair on the list.
fn mark_before_all(
    graph: &[u8],
    flags: &[u8],
    actions: usize,
    n: usize,
    classes: &[u8],
    marks: &mut [u8],
    entries: usize,
)
    requires { ReadyToMark n actions graph.now flags.now classes.now marks.old entries }
    ensures { MarkedBeforeAll n actions graph.now flags.now classes.now marks.old entries marks.new }
{
    for p in 0..entries {
        let j = noted(marks, p);
        mark_before(graph, flags, actions, n, classes, j, marks);
    }
}

// Marks the safe pairs with a move to pair j.
fn mark_before(
    graph: &[u8],
    flags: &[u8],
    actions: usize,
    n: usize,
    classes: &[u8],
    j: usize,
    marks: &mut [u8],
)
    requires listed_graph { ListedGraph n actions graph.now flags.now }
    requires in_bounds { 2000 ≤ length classes.now }
    requires j_lt_n { j < n }
    requires marks_size_in_bounds { marks_size ≤ length marks.old }
    ensures { MarkedBefore n actions graph.now flags.now classes.now j marks.old marks.new }
{
    let mut at = predecessors::head(flags, j);
    while 0 < at {
        let c = at - 1;
        at = predecessors::link(flags, c);
        mark_pair(flags, classes, predecessors::pair_of(c), marks);
    }
}

// Marks pair i if it is safe, and tells if it is the first of its class.
fn mark_pair(flags: &[u8], classes: &[u8], i: usize, marks: &mut [u8])
    requires i_lt_pair_room { i < pair_room }
    requires pair_room_in_bounds { pair_room ≤ length flags.now }
    requires in_bounds { 2000 ≤ length classes.now }
    requires marks_size_in_bounds { marks_size ≤ length marks.old }
    ensures { PairMarked flags.now classes.now i marks.old marks.new }
{
    if !pair_graph::is_safe(flags, i) {
        return;
    }
    marks[i] = MARKED;
    if pair_graph::class(classes, i) != i {
        return;
    }
    marks[FIRST_AT] = MARKED;
}

// Marks the safe pairs for which the first of their class is marked.
fn mark_with_firsts(flags: &[u8], n: usize, classes: &[u8], marks: &mut [u8])
    requires { ReadyForFirsts n flags.now classes.now marks.old }
    ensures { MarkedWithFirsts n flags.now classes.now marks.old marks.new }
{
    if marks[FIRST_AT] != MARKED {
        return;
    }
    for i in 0..n {
        mark_with_first(flags, classes, i, marks);
    }
}

// Marks pair i if it is safe and the first of its class is marked.
fn mark_with_first(flags: &[u8], classes: &[u8], i: usize, marks: &mut [u8])
    requires i_in_bounds { i < length flags.now }
    requires i_in_bounds_2 { 2 * i + 1 < length classes.now }
    requires i_in_bounds_3 { i < length marks.old }
    requires i_bound { class_in classes.now i ≤ i }
    ensures { MarkedWithFirst flags.now classes.now i marks.old marks.new }
{
    if !pair_graph::is_safe(flags, i) {
        return;
    }
    let first = pair_graph::class(classes, i);
    if !is_marked(marks, first) {
        return;
    }
    marks[i] = MARKED;
}

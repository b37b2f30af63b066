// One step of progression (01, 'What is pending') over a book that lies as bytes in a lent area.
#![tactic(auto)]

pub mod line;
pub mod node;

ghost use Rattle.std.specs.Prelude.{◌+◌, ◌<◌, ◌≤◌, ◌≡◌, length};
ghost use Rattle.logic.specs.Tower.{bit};
ghost use Rattle.reading.specs.BookArea.{nodes_in, lines_in};
ghost use Rattle.book_progression.specs.NodeBytes.{code_of, IsNode, IsHeld};
ghost use Rattle.book_progression.specs.PendingBytes.{cell_of};
ghost use Rattle.book_progression.specs.Promises.{HoldsAt, Merged, NodeReady, PutsNode, Compares, NextReady, Nexts, Stays, Progresses, StaysNested, Passes, CellSteps, HasNodes, Parts, EmptyTo, NodesProgress, IsLine, LineSteps, LinesProgress, LineBegins, LinesBegin, Emptied, Progressed, PendingBegun};

use logic::Tick;

// Where the number of the book's nodes stands.
const NODE_COUNT: usize = 480;

// How many nodes the book has.
pub fn node_count(book: &[u8]) -> usize
    requires { IsHeld book.now }
    ensures { result ≡ nodes_in book.now }
{
    book[NODE_COUNT] as usize
}

// A state with this mask has the mark: its bit is set.
fn marked(mark: u8, mask: usize) -> bool
    requires { mark < 16 }
    ensures { result ≡ bit mark mask }
{
    (mask >> mark) % 2 == 1
}

// Whether node k, a constant or a mark, holds at a state with these marks.
pub fn leaf_holds(book: &[u8], k: usize, mask: usize) -> bool
    requires node { IsNode book.now k }
    requires k_bound { code_of book.now k ≤ 3 }
    ensures { HoldsAt result book.now k mask }
{
    let code = node::code(book, k);
    if code <= node::TRUE {
        return code == node::TRUE;
    }
    let there = marked(node::number(book, k), mask);
    let wanted = code == node::WANTED;
    there == wanted
}

// Whether node k, an untimed formula, holds at a state with these marks. Of a timed one it is never
// asked.
pub fn holds(book: &[u8], k: usize, mask: usize) -> bool
    requires { IsNode book.now k }
    ensures { HoldsAt result book.now k mask }
{
    let code = node::code(book, k);
    if code <= node::WANTED {
        return leaf_holds(book, k, mask);
    }
    if node::NO_MORE <= code {
        return false;
    }
    let left = holds(book, node::first(book, k), mask);
    if code == node::AND {
        return left && holds(book, node::second(book, k), mask);
    }
    left || holds(book, node::second(book, k), mask)
}

// The same of a part. Most parts are leaves, and then `holds` is not called.
pub fn part_holds(book: &[u8], k: usize, mask: usize) -> bool
    requires { IsNode book.now k }
    ensures { HoldsAt result book.now k mask }
{
    if node::code(book, k) <= node::WANTED {
        return leaf_holds(book, k, mask);
    }
    holds(book, k, mask)
}

// What a cell says of its node: the ticks with which it is pending, if it is.
pub fn pending(cell: u8) -> Option<Tick>
    ensures { result ≡ cell_of cell }
{
    match cell {
        0 => None,
        _ => Some(Tick(cell as u64 - 1)),
    }
}

// The cell of a node that is pending with so many ticks.
pub fn cell(left: Tick) -> u8
    requires { left.0 ≤ 254 }
    ensures { result ≡ left.0 + 1 }
{
    (left.0 + 1) as u8
}

// The ticks that node k has where it comes up with r and its cell is this: where it is pending
// already, A keeps the larger number, U the smaller.
pub fn merged(book: &[u8], k: usize, r: Tick, cell: u8) -> Tick
    requires node { IsNode book.now k }
    requires r_bound { r.0 ≤ 254 }
    ensures { Merged result book.now k r cell }
{
    let Some(q) = pending(cell) else {
        return r;
    };
    match node::code(book, k) {
        node::ALWAYS => r.max(q),
        node::UNTIL => r.min(q),
        _ => r,
    }
}

// Node k becomes pending with r ticks.
fn put(book: &[u8], k: usize, r: Tick, cells: &mut [u8])
    requires { NodeReady book.now k r cells.old }
    ensures { PutsNode book.now k r cells.old cells.new }
{
    cells[k] = cell(merged(book, k, r, cells[k]));
}

// d is ~ t, for the comparison of this code.
pub fn compares(code: u8, d: Tick, t: Tick) -> bool
    ensures { Compares result code d t }
{
    match code {
        node::NO_MORE => d <= t,
        node::LESS => d < t,
        node::NO_LESS => d >= t,
        _ => d > t,
    }
}

// Next needs d ~ t and makes its part pending.
fn progress_next(book: &[u8], k: usize, d: Tick, cells: &mut [u8]) -> bool
    requires { NextReady book.now k cells.old }
    ensures { Nexts result book.now k d cells.old cells.new }
{
    let t = Tick(node::number(book, k) as u64);
    if !compares(node::code(book, k), d, t) {
        return false;
    }
    let part = node::second(book, k);
    put(book, part, node::fresh(book, part), cells);
    true
}

// Node k, with so many ticks left, stays pending with d fewer if there are as many.
fn stay(book: &[u8], k: usize, left: Tick, d: Tick, cells: &mut [u8])
    requires { NodeReady book.now k left cells.old }
    ensures { Stays book.now k left d cells.old cells.new }
{
    if left < d {
        return;
    }
    put(book, k, Tick(left.0 - d.0), cells);
}

// A node and the ticks that it has left.
#[derive(Clone, Copy)]
struct Nested {
    node: usize,
    left: Tick,
}

// Where node k, with r ticks left, is an A, it stays pending, and so does anew each A that is the part
// of the one before. The answer is the first node that is no A: what it leaves is all that node k
// leaves.
fn stay_nested(book: &[u8], k: usize, r: Tick, d: Tick, cells: &mut [u8]) -> Nested
    requires { NodeReady book.now k r cells.old }
    ensures { StaysNested result book.now k r d cells.old cells.new }
{
    let mut node = k;
    let mut left = r;
    while node::code(book, node) == node::ALWAYS {
        stay(book, node, left, d, cells);
        node = node::second(book, node);
        left = node::fresh(book, node);
    }
    Nested { node, left }
}

// Node k with r ticks left progresses as a state with these marks is left by a step of length d:
// what becomes pending is added to the cells. False if the step is broken; then the cells are of no
// use.
pub fn progress(book: &[u8], k: usize, r: Tick, mask: usize, d: Tick, cells: &mut [u8]) -> bool
    requires { NodeReady book.now k r cells.old }
    ensures { Progresses result book.now k r mask d cells.old cells.new }
{
    let at = stay_nested(book, k, r, d, cells);
    let code = node::code(book, at.node);
    if code <= node::WANTED {
        return leaf_holds(book, at.node, mask);
    }
    let second = node::second(book, at.node);
    let first = node::first(book, at.node);
    if code == node::UNTIL {
        if part_holds(book, second, mask) {
            return true;
        }
        if at.left < d {
            return false;
        }
        if !progress(book, first, node::fresh(book, first), mask, d, cells) {
            return false;
        }
        stay(book, at.node, at.left, d, cells);
        return true;
    }
    if node::NO_MORE <= code {
        return progress_next(book, at.node, d, cells);
    }
    if code == node::AND {
        if !progress(book, first, node::fresh(book, first), mask, d, cells) {
            return false;
        }
        return progress(book, second, node::fresh(book, second), mask, d, cells);
    }
    if code == node::OR_FIRST_TIMED {
        if part_holds(book, second, mask) {
            return true;
        }
        return progress(book, first, node::fresh(book, first), mask, d, cells);
    }
    if part_holds(book, first, mask) {
        return true;
    }
    progress(book, second, node::fresh(book, second), mask, d, cells)
}

// Node k progresses if its cell says that it is pending.
fn progress_cell(book: &[u8], k: usize, cell: u8, mask: usize, d: Tick, cells: &mut [u8]) -> bool
    requires node { IsNode book.now k }
    requires k_in_bounds { k < length cells.old }
    ensures { CellSteps result book.now k cell mask d cells.old cells.new }
{
    let Some(left) = pending(cell) else {
        return true;
    };
    progress(book, k, left, mask, d, cells)
}

// Passes over empty cells, four at a time, in the part of the area that starts at `from`: those from k
// to the answer are empty.
fn past_fours(area: &[u8], from: usize, count: usize, k: usize) -> usize
    requires count_in_bounds { from + count ≤ length area.now }
    requires k_le_count { k ≤ count }
    ensures { EmptyTo area.now from count k result }
{
    let mut i = k;
    while 4 <= count - i {
        if area_bytes::four_bytes(area, from + i) != 0 {
            return i;
        }
        i += 4;
    }
    i
}

// Passes over empty cells to the next that is not, or to the end.
pub fn past_empty(area: &[u8], from: usize, count: usize, k: usize) -> usize
    requires count_in_bounds { from + count ≤ length area.now }
    requires k_le_count { k ≤ count }
    ensures { EmptyTo area.now from count k result }
{
    for i in past_fours(area, from, count, k)..count {
        if area[from + i] != 0 {
            return i;
        }
    }
    count
}

// Every pending node progresses in turn: those of the part of the area that starts at `from`, into
// the part that starts at `to`.
fn progress_nodes(
    book: &[u8],
    count: usize,
    mask: usize,
    d: Tick,
    area: &mut [u8],
    from: usize,
    to: usize,
) -> bool
    requires has_nodes { HasNodes book.now count }
    requires parts { Parts (length area.old) count from to }
    ensures { NodesProgress result book.now count mask d area.old from to area.new }
{
    let mut k = 0;
    while k < count {
        let cell = area[from + k];
        if !progress_cell(book, k, cell, mask, d, &mut area[to..to + count]) {
            return false;
        }
        k = past_empty(area, from, count, k + 1);
    }
    true
}

// Whether node k is an or whose first side is untimed and holds, so that nothing comes of it.
pub fn passes(book: &[u8], k: usize, mask: usize) -> bool
    requires { IsNode book.now k }
    ensures { Passes result book.now k mask }
{
    node::code(book, k) == node::OR && part_holds(book, node::first(book, k), mask)
}

// The formula of line i progresses if it is an `always` line. Most lines pass at most states, and then
// `progress` is not called.
fn progress_line(book: &[u8], i: usize, mask: usize, d: Tick, cells: &mut [u8]) -> bool
    requires line { IsLine book.now i }
    requires cells_len { length cells.old ≡ nodes_in book.now }
    ensures { LineSteps result book.now i mask d cells.old cells.new }
{
    let at = line::LINES_AT + line::LINE_SIZE * i;
    if book[at] != line::ALWAYS {
        return true;
    }
    let k = book[at + line::FORMULA] as usize;
    if passes(book, k, mask) {
        return true;
    }
    progress(book, k, node::fresh(book, k), mask, d, cells)
}

// Each of the lines progresses in turn.
fn progress_lines(book: &[u8], lines: usize, mask: usize, d: Tick, cells: &mut [u8]) -> bool
    requires held { IsHeld book.now }
    requires lines_value { lines ≡ lines_in book.now }
    requires cells_len { length cells.old ≡ nodes_in book.now }
    ensures { LinesProgress result book.now mask d cells.old cells.new }
{
    for i in 0..lines {
        if !progress_line(book, i, mask, d, cells) {
            return false;
        }
    }
    true
}

// Nothing is pending in the part of the area that starts at `to`.
fn empty(book: &[u8], area: &mut [u8], to: usize)
    requires held { IsHeld book.now }
    requires book_in_bounds { to + nodes_in book.now ≤ length area.old }
    ensures { Emptied book.now area.old to area.new }
{
    let count = node_count(book);
    area_bytes::clear(&mut area[to..to + count]);
}

// A state with these marks is left by a step of length d: what is pending in the part of the area
// that starts at `from` progresses into the part that starts at `to`, a byte for each node. False
// if the step is broken. Every other byte of the area stays as it is.
pub fn progressed(
    book: &[u8],
    mask: usize,
    d: Tick,
    area: &mut [u8],
    from: usize,
    to: usize,
) -> bool
    requires held { IsHeld book.now }
    requires parts { Parts (length area.old) (nodes_in book.now) from to }
    ensures { Progressed result book.now mask d area.old from to area.new }
{
    empty(book, area, to);
    let count = node_count(book);
    let lines = line::count(book);
    if !progress_nodes(book, count, mask, d, area, from, to) {
        return false;
    }
    progress_lines(book, lines, mask, d, &mut area[to..to + count])
}

// The formula of line i becomes pending if it is a `start` line.
fn begin_line(book: &[u8], i: usize, cells: &mut [u8])
    requires line { IsLine book.now i }
    requires cells_len { length cells.old ≡ nodes_in book.now }
    ensures { LineBegins book.now i cells.old cells.new }
{
    if line::form(book, i) == line::ALWAYS {
        return;
    }
    let k = line::formula(book, i);
    put(book, k, node::fresh(book, k), cells);
}

// Every line begins in turn.
fn begin_lines(book: &[u8], cells: &mut [u8])
    requires held { IsHeld book.now }
    requires cells_len { length cells.old ≡ nodes_in book.now }
    ensures { LinesBegin book.now cells.old cells.new }
{
    let lines = line::count(book);
    for at in 0..lines {
        begin_line(book, at, cells);
    }
}

// At first the `start` formulas are pending: they are written to the part of the area that starts
// at `to`. Every other byte of the area stays as it is.
pub fn begin(book: &[u8], area: &mut [u8], to: usize)
    requires held { IsHeld book.now }
    requires book_in_bounds { to + nodes_in book.now ≤ length area.old }
    ensures { PendingBegun book.now area.old to area.new }
{
    empty(book, area, to);
    let count = node_count(book);
    begin_lines(book, &mut area[to..to + count]);
}

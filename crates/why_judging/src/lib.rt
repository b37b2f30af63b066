// Judging a run (02, item 4): for every node of a book and every position of a run whether its
// formula is kept there, by the meaning and not by progression; from the last position back, and
// parts before what they are parts of. What a position shows is noted first, the bytes of a node are
// read once, and each kind of node has a loop of its own.
#![tactic(auto)]

ghost use Rattle.std.specs.Prelude.{◌+◌, ◌*◌, ◌≤◌, ◌<◌, ◌≡◌, length, set, eqb};
ghost use Rattle.base.specs.Choice.{pick};
ghost use Rattle.logic.specs.Time.{ticks, plus, at_most};
ghost use Rattle.logic.specs.Tower.{tower_of, bit};
ghost use Rattle.logic.specs.Runs.{duration};
ghost use Rattle.reading.specs.BookArea.{nodes_in};
ghost use Rattle.book_progression.specs.NodeBytes.{IsNode, IsHeld, code_of, first_of, second_of, fresh_of};
ghost use Rattle.why_judging.specs.Judgement.{position_room, states_size, marks_size, kept_size, never_far, state_in, moment_in, RunHeld, with_moment, RunMarked, MarkShown, kept_in, kept_byte, NodesJudged, NodeNext, NodeWaits, KeptHere};

use book_progression::node;
use logic::{Position, Tick};

// The most positions that are judged.
const POSITION_ROOM: usize = 1000;

// Where the marks from 8 on stand, behind those below 8, and the lengths of the steps.
const HIGH_MARKS_AT: usize = 1000;

const LENGTHS_AT: usize = 2000;

// It comes here.
const HERE: Tick = Tick(0);

// It never comes: later than any bound.
const NEVER: Tick = Tick(65536);

// ---- what a position shows

// The state at position i.
fn state_at(states: &[u8], i: Position) -> usize
    requires states_size_in_bounds { states_size ≤ length states.now }
    requires i_lt_position_room { i.0 < position_room }
    ensures { result ≡ state_in states.now i.0 }
{
    area_bytes::two_bytes(states, 2 * i.0)
}

// Notes the marks at position i and the length of the step that leaves it.
fn note_moment(tower: &[u8], run: &[u8], states: &[u8], n: usize, i: Position, marks: &mut [u8])
    requires run_held { RunHeld tower.now run.now states.now n }
    requires i_lt_n { i.0 < n }
    requires marks_size_in_bounds { marks_size ≤ length marks.old }
    ensures { marks.new ≡ with_moment tower.now run.now states.now i.0 marks.old }
{
    let at = i.0;
    let x = state_at(states, i);
    let mask = file_tower::mask(tower, x);
    let d = file_tower::step_length(tower, x, run[at] as usize);
    marks[at] = (mask % 256) as u8;
    marks[HIGH_MARKS_AT + at] = (mask / 256 % 256) as u8;
    marks[LENGTHS_AT + at] = d.0 as u8;
}

// The same at every position.
fn note_marks(tower: &[u8], run: &[u8], states: &[u8], n: usize, marks: &mut [u8])
    requires run_held { RunHeld tower.now run.now states.now n }
    requires marks_size_in_bounds { marks_size ≤ length marks.old }
    ensures { RunMarked tower.now run.now states.now marks.new n }
{
    for i in 0..n {
        note_moment(tower, run, states, n, Position(i), marks);
    }
}

// The length of the step that leaves position i.
fn length_at(tower: &[u8], run: &[u8], states: &[u8], marks: &[u8], n: usize, i: Position) -> Tick
    requires run_marked { RunMarked tower.now run.now states.now marks.now n }
    requires i_lt_n { i.0 < n }
    ensures { result ≡ duration (tower_of tower.now) (moment_in run.now states.now i.0) }
{
    Tick(marks[LENGTHS_AT + i.0] as u64)
}

// Node k is kept at position i, as it was judged.
pub fn kept_at(kept: &[u8], k: usize, i: Position) -> bool
    requires kept_size_in_bounds { kept_size ≤ length kept.now }
    requires k_bound { k < 60 }
    requires i_lt_position_room { i.0 < position_room }
    ensures { result ≡ eqb (kept_in kept.now k i.0) 1 }
{
    kept[POSITION_ROOM * k + i.0] == 1
}

// Writes whether node k is kept at position i.
fn put_kept(kept: &mut [u8], k: usize, i: Position, b: bool)
    requires kept_size_in_bounds { kept_size ≤ length kept.old }
    requires k_bound { k < 60 }
    requires i_lt_position_room { i.0 < position_room }
    ensures { kept.new ≡ set kept.old (position_room * k + i.0) (kept_byte b) }
{
    if b {
        kept[POSITION_ROOM * k + i.0] = 1;
        return;
    }
    kept[POSITION_ROOM * k + i.0] = 0;
}

// ---- constants and marks

// Node k, a constant, at every position.
fn judge_constant(
    tower: &[u8],
    nodes: &[u8],
    run: &[u8],
    states: &[u8],
    marks: &[u8],
    n: usize,
    k: usize,
    b: bool,
    kept: &mut [u8],
)
    requires node_next { NodeNext tower.now nodes.now run.now states.now marks.now n k kept.old }
    requires k_bound { code_of nodes.now k ≤ 1 }
    requires b_value { b ≡ eqb (code_of nodes.now k) 1 }
    ensures { NodesJudged tower.now nodes.now run.now states.now n (k + 1) kept.new }
{
    for i in (0..n).rev() {
        put_kept(kept, k, Position(i), b);
    }
}

// Bit m of a byte is set.
fn bit_of(byte: u8, m: u8) -> bool
    requires { m < 8 }
    ensures { result ≡ bit m byte }
{
    (byte >> m) % 2 == 1
}

// Node k, a mark, at position i, where the byte from `from` on shows it as its bit m.
fn mark_at(
    tower: &[u8],
    nodes: &[u8],
    run: &[u8],
    states: &[u8],
    marks: &[u8],
    n: usize,
    k: usize,
    from: usize,
    m: u8,
    wanted: bool,
    i: Position,
) -> bool
    requires run_marked { RunMarked tower.now run.now states.now marks.now n }
    requires mark_shown { MarkShown nodes.now k from m wanted }
    requires i_lt_n { i.0 < n }
    ensures { KeptHere result tower.now nodes.now run.now states.now n k i.0 }
{
    let there = bit_of(marks[from + i.0], m);
    there == wanted
}

// Node k, such a mark, at every position.
fn judge_mark(
    tower: &[u8],
    nodes: &[u8],
    run: &[u8],
    states: &[u8],
    marks: &[u8],
    n: usize,
    k: usize,
    from: usize,
    m: u8,
    wanted: bool,
    kept: &mut [u8],
)
    requires node_next { NodeNext tower.now nodes.now run.now states.now marks.now n k kept.old }
    requires mark_shown { MarkShown nodes.now k from m wanted }
    ensures { NodesJudged tower.now nodes.now run.now states.now n (k + 1) kept.new }
{
    for i in (0..n).rev() {
        let b = mark_at(
            tower,
            nodes,
            run,
            states,
            marks,
            n,
            k,
            from,
            m,
            wanted,
            Position(i),
        );
        put_kept(kept, k, Position(i), b);
    }
}

// Node k, a constant or a mark, at every position.
fn judge_leaf(
    tower: &[u8],
    nodes: &[u8],
    run: &[u8],
    states: &[u8],
    marks: &[u8],
    n: usize,
    k: usize,
    kept: &mut [u8],
)
    requires node_next { NodeNext tower.now nodes.now run.now states.now marks.now n k kept.old }
    requires k_bound { code_of nodes.now k ≤ 3 }
    ensures { NodesJudged tower.now nodes.now run.now states.now n (k + 1) kept.new }
{
    let code = node::code(nodes, k);
    if code <= node::TRUE {
        judge_constant(
            tower,
            nodes,
            run,
            states,
            marks,
            n,
            k,
            code == node::TRUE,
            kept,
        );
        return;
    }
    let m = node::number(nodes, k);
    let wanted = code == node::WANTED;
    if m < 8 {
        judge_mark(tower, nodes, run, states, marks, n, k, 0, m, wanted, kept);
        return;
    }
    judge_mark(
        tower,
        nodes,
        run,
        states,
        marks,
        n,
        k,
        HIGH_MARKS_AT,
        m - 8,
        wanted,
        kept,
    );
}

// ---- `&` and `|`

// Node k, `&` or `|` by its code, with these parts, at position i.
fn both_at(
    tower: &[u8],
    nodes: &[u8],
    run: &[u8],
    states: &[u8],
    marks: &[u8],
    n: usize,
    k: usize,
    code: u8,
    p: usize,
    q: usize,
    i: Position,
    kept: &[u8],
) -> bool
    requires node_next { NodeNext tower.now nodes.now run.now states.now marks.now n k kept.now }
    requires code_value { code ≡ code_of nodes.now k }
    requires bound { 3 < code_of nodes.now k }
    requires k_bound { code_of nodes.now k < 7 }
    requires p_value { p ≡ first_of nodes.now k }
    requires q_value { q ≡ second_of nodes.now k }
    requires i_lt_n { i.0 < n }
    ensures { KeptHere result tower.now nodes.now run.now states.now n k i.0 }
{
    let first = kept_at(kept, p, i);
    let second = kept_at(kept, q, i);
    if code == node::AND {
        return first && second;
    }
    first || second
}

// `&` or `|`, node k, at every position.
fn judge_both(
    tower: &[u8],
    nodes: &[u8],
    run: &[u8],
    states: &[u8],
    marks: &[u8],
    n: usize,
    k: usize,
    kept: &mut [u8],
)
    requires node_next { NodeNext tower.now nodes.now run.now states.now marks.now n k kept.old }
    requires bound { 3 < code_of nodes.now k }
    requires k_bound { code_of nodes.now k < 7 }
    ensures { NodesJudged tower.now nodes.now run.now states.now n (k + 1) kept.new }
{
    let code = node::code(nodes, k);
    let p = node::first(nodes, k);
    let q = node::second(nodes, k);
    for i in (0..n).rev() {
        let b = both_at(
            tower,
            nodes,
            run,
            states,
            marks,
            n,
            k,
            code,
            p,
            q,
            Position(i),
            kept,
        );
        put_kept(kept, k, Position(i), b);
    }
}

// ---- next

// A next, node k, with this code, bound and part, at position i: the action is as long as it says, and
// its part is kept at the next position, if that is judged.
fn next_at(
    tower: &[u8],
    nodes: &[u8],
    run: &[u8],
    states: &[u8],
    marks: &[u8],
    n: usize,
    k: usize,
    code: u8,
    t: Tick,
    q: usize,
    i: Position,
    kept: &[u8],
) -> bool
    requires node_next { NodeNext tower.now nodes.now run.now states.now marks.now n k kept.now }
    requires code_value { code ≡ code_of nodes.now k }
    requires bound { 6 < code_of nodes.now k }
    requires k_bound { code_of nodes.now k < 11 }
    requires t_value { t ≡ ticks (fresh_of nodes.now k) }
    requires q_value { q ≡ second_of nodes.now k }
    requires i_lt_n { i.0 < n }
    ensures { KeptHere result tower.now nodes.now run.now states.now n k i.0 }
{
    let d = length_at(tower, run, states, marks, n, i);
    if !book_progression::compares(code, d, t) {
        return false;
    }
    if i.0 + 1 == n {
        return true;
    }
    kept_at(kept, q, Position(i.0 + 1))
}

// A next, node k, at every position.
fn judge_next(
    tower: &[u8],
    nodes: &[u8],
    run: &[u8],
    states: &[u8],
    marks: &[u8],
    n: usize,
    k: usize,
    kept: &mut [u8],
)
    requires node_next { NodeNext tower.now nodes.now run.now states.now marks.now n k kept.old }
    requires bound { 6 < code_of nodes.now k }
    requires k_bound { code_of nodes.now k < 11 }
    ensures { NodesJudged tower.now nodes.now run.now states.now n (k + 1) kept.new }
{
    let code = node::code(nodes, k);
    let t = node::fresh(nodes, k);
    let q = node::second(nodes, k);
    for i in (0..n).rev() {
        let b = next_at(
            tower,
            nodes,
            run,
            states,
            marks,
            n,
            k,
            code,
            t,
            q,
            Position(i),
            kept,
        );
        put_kept(kept, k, Position(i), b);
    }
}

// ---- A and U

// In how many ticks the part of an A next fails: here, or d later than from the next position.
fn fails(part: bool, d: Tick, far: Tick) -> Tick
    requires d_bound { d.0 ≤ 65536 }
    requires far_bound { far.0 ≤ 65601536 }
    ensures { result ≡ pick part (λ _. plus d far) (λ _. ticks 0) }
{
    if part {
        return Tick(d.0 + far.0);
    }
    HERE
}

// In how many ticks a U next ends: here if its second part is kept, never if its first part is not, and
// else d later than from the next position.
fn ends(first: bool, second: bool, d: Tick, far: Tick) -> Tick
    requires d_bound { d.0 ≤ 65536 }
    requires far_bound { far.0 ≤ 65601536 }
    ensures { result ≡ pick second (λ _. ticks 0) (λ _. pick first (λ _. plus d far) (λ _. never_far)) }
{
    if second {
        return HERE;
    }
    if first {
        return Tick(d.0 + far.0);
    }
    NEVER
}

// It comes within t.
fn within(far: Tick, t: Tick) -> bool
    ensures { result ≡ at_most far t }
{
    far <= t
}

// What node k, an A with this part, waits for at position i, where it is this at the next position.
fn fails_at(
    tower: &[u8],
    nodes: &[u8],
    run: &[u8],
    states: &[u8],
    marks: &[u8],
    n: usize,
    k: usize,
    q: usize,
    i: Position,
    far: Tick,
    kept: &[u8],
) -> Tick
    requires node_next { NodeNext tower.now nodes.now run.now states.now marks.now n k kept.now }
    requires k_value { code_of nodes.now k ≡ 11 }
    requires q_value { q ≡ second_of nodes.now k }
    requires i_lt_n { i.0 < n }
    requires node_waits { NodeWaits far tower.now nodes.now run.now states.now n k (i.0 + 1) }
    ensures { NodeWaits result tower.now nodes.now run.now states.now n k i.0 }
{
    let part = kept_at(kept, q, i);
    fails(part, length_at(tower, run, states, marks, n, i), far)
}

// The same for a U.
fn ends_at(
    tower: &[u8],
    nodes: &[u8],
    run: &[u8],
    states: &[u8],
    marks: &[u8],
    n: usize,
    k: usize,
    p: usize,
    q: usize,
    i: Position,
    far: Tick,
    kept: &[u8],
) -> Tick
    requires node_next { NodeNext tower.now nodes.now run.now states.now marks.now n k kept.now }
    requires k_value { code_of nodes.now k ≡ 12 }
    requires p_value { p ≡ first_of nodes.now k }
    requires q_value { q ≡ second_of nodes.now k }
    requires i_lt_n { i.0 < n }
    requires node_waits { NodeWaits far tower.now nodes.now run.now states.now n k (i.0 + 1) }
    ensures { NodeWaits result tower.now nodes.now run.now states.now n k i.0 }
{
    let first = kept_at(kept, p, i);
    let second = kept_at(kept, q, i);
    ends(
        first,
        second,
        length_at(tower, run, states, marks, n, i),
        far,
    )
}

// Node k, an A, at every position: it is kept unless its part fails within its bound.
fn judge_always(
    tower: &[u8],
    nodes: &[u8],
    run: &[u8],
    states: &[u8],
    marks: &[u8],
    n: usize,
    k: usize,
    kept: &mut [u8],
)
    requires node_next { NodeNext tower.now nodes.now run.now states.now marks.now n k kept.old }
    requires k_value { code_of nodes.now k ≡ 11 }
    ensures { NodesJudged tower.now nodes.now run.now states.now n (k + 1) kept.new }
{
    let t = node::fresh(nodes, k);
    let q = node::second(nodes, k);
    let mut far = NEVER;
    for i in (0..n).rev() {
        far = fails_at(
            tower,
            nodes,
            run,
            states,
            marks,
            n,
            k,
            q,
            Position(i),
            far,
            kept,
        );
        put_kept(kept, k, Position(i), !within(far, t));
    }
}

// Node k, a U, at every position: it is kept if it ends within its bound.
fn judge_until(
    tower: &[u8],
    nodes: &[u8],
    run: &[u8],
    states: &[u8],
    marks: &[u8],
    n: usize,
    k: usize,
    kept: &mut [u8],
)
    requires node_next { NodeNext tower.now nodes.now run.now states.now marks.now n k kept.old }
    requires k_value { code_of nodes.now k ≡ 12 }
    ensures { NodesJudged tower.now nodes.now run.now states.now n (k + 1) kept.new }
{
    let t = node::fresh(nodes, k);
    let p = node::first(nodes, k);
    let q = node::second(nodes, k);
    let mut far = HERE;
    for i in (0..n).rev() {
        far = ends_at(
            tower,
            nodes,
            run,
            states,
            marks,
            n,
            k,
            p,
            q,
            Position(i),
            far,
            kept,
        );
        put_kept(kept, k, Position(i), within(far, t));
    }
}

// ---- all nodes

// Node k at every position, where the nodes below it are judged.
fn judge_node(
    tower: &[u8],
    nodes: &[u8],
    run: &[u8],
    states: &[u8],
    marks: &[u8],
    n: usize,
    k: usize,
    kept: &mut [u8],
)
    requires { NodeNext tower.now nodes.now run.now states.now marks.now n k kept.old }
    ensures { NodesJudged tower.now nodes.now run.now states.now n (k + 1) kept.new }
{
    let code = node::code(nodes, k);
    if code <= node::WANTED {
        judge_leaf(tower, nodes, run, states, marks, n, k, kept);
        return;
    }
    if code < node::NO_MORE {
        judge_both(tower, nodes, run, states, marks, n, k, kept);
        return;
    }
    if code < node::ALWAYS {
        judge_next(tower, nodes, run, states, marks, n, k, kept);
        return;
    }
    if code == node::ALWAYS {
        judge_always(tower, nodes, run, states, marks, n, k, kept);
        return;
    }
    judge_until(tower, nodes, run, states, marks, n, k, kept);
}

// Every node at every position, parts before what they are parts of.
fn judge_in_order(
    tower: &[u8],
    nodes: &[u8],
    run: &[u8],
    states: &[u8],
    marks: &[u8],
    n: usize,
    kept: &mut [u8],
)
    requires run_marked { RunMarked tower.now run.now states.now marks.now n }
    requires held { IsHeld nodes.now }
    requires kept_size_in_bounds { kept_size ≤ length kept.old }
    ensures { NodesJudged tower.now nodes.now run.now states.now n (nodes_in nodes.now) kept.new }
{
    let count = book_progression::node_count(nodes);
    for k in 0..count {
        judge_node(tower, nodes, run, states, marks, n, k, kept);
    }
}

// Every node at every position. What the positions show is noted in `marks`.
pub fn judge_nodes(
    tower: &[u8],
    nodes: &[u8],
    run: &[u8],
    states: &[u8],
    n: usize,
    marks: &mut [u8],
    kept: &mut [u8],
)
    requires run_held { RunHeld tower.now run.now states.now n }
    requires held { IsHeld nodes.now }
    requires marks_size_in_bounds { marks_size ≤ length marks.old }
    requires kept_size_in_bounds { kept_size ≤ length kept.old }
    ensures { NodesJudged tower.now nodes.now run.now states.now n (nodes_in nodes.now) kept.new }
{
    note_marks(tower, run, states, n, marks);
    judge_in_order(tower, nodes, run, states, marks, n, kept);
}

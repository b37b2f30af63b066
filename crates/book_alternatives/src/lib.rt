// One step of progression of a set of alternatives (02, item 3) over a book that lies as bytes in a lent
// area: every node gives a set of its own, which is combined with what stands so far.
#![tactic(auto)]

ghost use Rattle.std.specs.Prelude.{◌+◌, ◌*◌, ◌<◌, ◌≤◌, ◌≡◌, length};
ghost use Rattle.reading.specs.BookArea.{nodes_in};
ghost use Rattle.book_progression.specs.NodeBytes.{IsNode, IsHeld};
ghost use Rattle.book_progression.specs.Promises.{IsLine};
ghost use Rattle.set_bytes.specs.SetBytes.{candidates_size};
ghost use Rattle.book_alternatives.specs.Offers.{sets_size, TimedAt, TwoSidedAt, OneSidedAt, TwoTimed, OwnReady, Tested, Alone, Looked, PutIn, StayReady, Stayed, TwoReady, OfTwo, OfferReady, Offered, InPlaceReady, OfferedOne, StepReady, CombineReady, NodeCombined, CombinedInPlace, CellCombined, NodesCombined, LineCombined, LinesCombined, NoneCombined, AlternativeReady, Behind, JoinedStands, CombinedCopied, BehindJoined, Progressed};

use book_progression::{line, node};
use logic::Tick;

// From one alternative to the next, and from one set to the next.
const SIZE: usize = 60;

const SET: usize = 960;

// Where the set that is combined so far begins, and where the set that is joined so far.
const COMBINED: usize = 57600;

pub const JOINED: usize = 58560;

// What is looked at of a node (specs/Looking.antt): nothing, since the step is broken, or since nothing
// comes of it; its part, which becomes pending; the second or only part; the first; both.
#[derive(Clone, Copy)]
enum Look {
    Broken,
    Passes,
    Part,
    Second,
    First,
    Both,
}

// A set of alternatives: where it lies, and how many there are, 17 for over 16.
#[derive(Clone, Copy)]
pub struct SetAt {
    pub at: usize,
    pub count: usize,
}

// Whether node k is timed: it holds N, A, E or U.
pub fn is_timed(book: &[u8], k: usize) -> bool
    requires { IsNode book.now k }
    ensures { TimedAt result book.now k }
{
    let code = node::code(book, k);
    if code <= node::WANTED {
        return false;
    }
    if node::NO_MORE <= code {
        return true;
    }
    is_timed(book, node::first(book, k)) || is_timed(book, node::second(book, k))
}

// Whether node k is an or with two timed sides.
fn is_two_sided(book: &[u8], k: usize) -> bool
    requires { IsNode book.now k }
    ensures { TwoSidedAt result book.now k }
{
    node::code(book, k) == node::OR_FIRST_TIMED && is_timed(book, node::second(book, k))
}

// Whether no or in node k has two timed sides.
fn is_one_sided(book: &[u8], k: usize) -> bool
    requires { IsNode book.now k }
    ensures { OneSidedAt result book.now k }
{
    let code = node::code(book, k);
    if code <= node::WANTED {
        return true;
    }
    if is_two_sided(book, k) {
        return false;
    }
    if !is_one_sided(book, node::second(book, k)) {
        return false;
    }
    if code < node::NO_MORE {
        return is_one_sided(book, node::first(book, k));
    }
    if code != node::UNTIL {
        return true;
    }
    is_one_sided(book, node::first(book, k))
}

// Whether node k is N, A or U and its parts are leaves, as most that are pending: then no or in it has
// two timed sides. Where it says no, that is open.
fn has_leaf_parts(book: &[u8], k: usize) -> bool
    requires { IsNode book.now k }
    ensures { OneSidedAt result book.now k }
{
    let code = node::code(book, k);
    if code < node::NO_MORE {
        return false;
    }
    if node::WANTED < node::code(book, node::second(book, k)) {
        return false;
    }
    if code != node::UNTIL {
        return true;
    }
    node::code(book, node::first(book, k)) <= node::WANTED
}

// Whether no or in node k has two timed sides, so that it gives one alternative at most.
fn gives_one(book: &[u8], k: usize) -> bool
    requires { IsNode book.now k }
    ensures { OneSidedAt result book.now k }
{
    has_leaf_parts(book, k) || is_one_sided(book, k)
}

// Whether some or of the book has two timed sides.
pub fn two_timed(book: &[u8]) -> bool
    requires { IsHeld book.now }
    ensures { TwoTimed result book.now }
{
    let n = book_progression::node_count(book);
    for k in 0..n {
        if is_two_sided(book, k) {
            return true;
        }
    }
    false
}

// ---- the set of a node

// In the set of node k nothing is pending in the one alternative, if the test holds; else it has none.
fn tested(test: bool, n: usize, k: usize, sets: &mut [u8]) -> SetAt
    requires { OwnReady n k sets.old }
    ensures { Tested result test n k sets.old sets.new }
{
    let at = SET * k;
    if !test {
        return SetAt { at, count: 0 };
    }
    area_bytes::clear(&mut sets[at..at + n]);
    SetAt { at, count: 1 }
}

// In the set of node k one node alone is pending, with r ticks.
fn alone(n: usize, k: usize, part: usize, r: Tick, sets: &mut [u8]) -> SetAt
    requires own_ready { OwnReady n k sets.old }
    requires part_lt_n { part < n }
    requires r_bound { r.0 ≤ 254 }
    ensures { Alone result n k part r sets.old sets.new }
{
    let at = SET * k;
    area_bytes::clear(&mut sets[at..at + n]);
    sets[at + part] = book_progression::cell(r);
    SetAt { at, count: 1 }
}

// What is looked at of node k with r ticks left, as a state with these marks is left by a step of
// length d. Not looked at are the timed side of an or where its untimed side holds, and the first part
// of an until that ends or breaks.
fn looks(book: &[u8], k: usize, r: Tick, mask: usize, d: Tick) -> Look
    requires { IsNode book.now k }
    ensures { Looked result book.now k r mask d }
{
    let code = node::code(book, k);
    if code <= node::WANTED {
        if book_progression::leaf_holds(book, k, mask) {
            return Look::Passes;
        }
        return Look::Broken;
    }
    if code == node::AND {
        return Look::Both;
    }
    if code == node::ALWAYS {
        return Look::Second;
    }
    let second = node::second(book, k);
    if code == node::UNTIL {
        if book_progression::part_holds(book, second, mask) {
            return Look::Passes;
        }
        if r < d {
            return Look::Broken;
        }
        return Look::First;
    }
    if node::NO_MORE <= code {
        if book_progression::compares(code, d, Tick(node::number(book, k) as u64)) {
            return Look::Part;
        }
        return Look::Broken;
    }
    if code == node::OR_FIRST_TIMED {
        if is_timed(book, second) {
            return Look::Both;
        }
        if book_progression::part_holds(book, second, mask) {
            return Look::Passes;
        }
        return Look::First;
    }
    if book_progression::part_holds(book, node::first(book, k), mask) {
        return Look::Passes;
    }
    Look::Second
}

// Node k becomes pending with r ticks in the alternative at this place.
fn put_in(book: &[u8], k: usize, r: Tick, at: usize, sets: &mut [u8])
    requires node { IsNode book.now k }
    requires r_bound { r.0 ≤ 254 }
    requires k_in_bounds { at + k < length sets.old }
    ensures { PutIn book.now k r at sets.old sets.new }
{
    let left = book_progression::merged(book, k, r, sets[at + k]);
    sets[at + k] = book_progression::cell(left);
}

// The set of its part as that of node k, with node k itself if it stays pending: with d ticks fewer
// than r, if there are as many. If that set has one alternative, node k is put into it where it lies.
fn stay(
    book: &[u8],
    n: usize,
    k: usize,
    r: Tick,
    d: Tick,
    one: SetAt,
    sets: &mut [u8],
    room: &mut [u8],
) -> SetAt
    requires { StayReady book.now n k r one sets.old room.old }
    ensures { Stayed result book.now n k r d one sets.old room.old sets.new room.new }
{
    if node::code(book, k) < node::ALWAYS {
        return one;
    }
    if r < d {
        return one;
    }
    let left = Tick(r.0 - d.0);
    if one.count == 1 {
        put_in(book, k, left, one.at, sets);
        return one;
    }
    let own = alone(n, k, k, left, sets);
    let count = set_bytes::combine(
        book, n, sets, one.at, one.count, own.at, own.count, own.at, room,
    );
    SetAt { at: own.at, count }
}

// The sets of its two sides as that of node k: combined if it is an and, else joined.
fn of_two(
    book: &[u8],
    n: usize,
    k: usize,
    one: SetAt,
    two: SetAt,
    sets: &mut [u8],
    room: &mut [u8],
) -> SetAt
    requires { TwoReady book.now n k one two sets.old room.old }
    ensures { OfTwo result book.now n k one two sets.old room.old sets.new room.new }
{
    let at = SET * k;
    if node::code(book, k) == node::AND {
        let count = set_bytes::combine(
            book, n, sets, one.at, one.count, two.at, two.count, at, room,
        );
        return SetAt { at, count };
    }
    let count = set_bytes::join(
        book, n, sets, one.at, one.count, two.at, two.count, at, room,
    );
    SetAt { at, count }
}

// Node k with r ticks left, as a state with these marks is left by a step of length d, where no or in it
// has two timed sides: the one alternative to which it progresses from nothing, or none where the step
// is broken.
fn offer_one(
    book: &[u8],
    n: usize,
    k: usize,
    r: Tick,
    mask: usize,
    d: Tick,
    sets: &mut [u8],
) -> SetAt
    requires { InPlaceReady book.now n k r sets.old }
    ensures { OfferedOne result book.now n k r mask d sets.old sets.new }
{
    let at = SET * k;
    area_bytes::clear(&mut sets[at..at + n]);
    if book_progression::progress(book, k, r, mask, d, &mut sets[at..at + n]) {
        return SetAt { at, count: 1 };
    }
    SetAt { at, count: 0 }
}

// The same of any node: the alternatives that come of it.
pub fn offer(
    book: &[u8],
    n: usize,
    k: usize,
    r: Tick,
    mask: usize,
    d: Tick,
    sets: &mut [u8],
    room: &mut [u8],
) -> SetAt
    requires { OfferReady book.now n k r sets.old room.old }
    ensures { Offered result book.now n k r mask d sets.old room.old sets.new room.new }
{
    if gives_one(book, k) {
        return offer_one(book, n, k, r, mask, d, sets);
    }
    match looks(book, k, r, mask, d) {
        Look::Broken => tested(false, n, k, sets),
        Look::Passes => tested(true, n, k, sets),
        Look::Part => {
            let part = node::second(book, k);
            alone(n, k, part, node::fresh(book, part), sets)
        }
        Look::Second => {
            let part = node::second(book, k);
            let one = offer(book, n, part, node::fresh(book, part), mask, d, sets, room);
            stay(book, n, k, r, d, one, sets, room)
        }
        Look::First => {
            let part = node::first(book, k);
            let one = offer(book, n, part, node::fresh(book, part), mask, d, sets, room);
            stay(book, n, k, r, d, one, sets, room)
        }
        Look::Both => {
            let first = node::first(book, k);
            let one = offer(
                book,
                n,
                first,
                node::fresh(book, first),
                mask,
                d,
                sets,
                room,
            );
            let second = node::second(book, k);
            let two = offer(
                book,
                n,
                second,
                node::fresh(book, second),
                mask,
                d,
                sets,
                room,
            );
            of_two(book, n, k, one, two, sets, room)
        }
    }
}

// ---- a step

// The set of node k with r ticks left is combined with what stands so far, of which there are `count`.
fn combine_general(
    book: &[u8],
    n: usize,
    k: usize,
    r: Tick,
    mask: usize,
    d: Tick,
    count: usize,
    sets: &mut [u8],
    room: &mut [u8],
) -> usize
    requires { OfferReady book.now n k r sets.old room.old }
    ensures { NodeCombined result book.now n k r mask d count sets.old room.old sets.new room.new }
{
    let one = offer(book, n, k, r, mask, d, sets, room);
    set_bytes::combine(
        book, n, sets, COMBINED, count, one.at, one.count, COMBINED, room,
    )
}

// The same where one alternative stands so far and no or in node k has two timed sides: the node
// progresses in that alternative, which is left, or none where the step is broken.
fn combine_in_place(
    book: &[u8],
    n: usize,
    k: usize,
    r: Tick,
    mask: usize,
    d: Tick,
    sets: &mut [u8],
) -> usize
    requires { InPlaceReady book.now n k r sets.old }
    ensures { CombinedInPlace result book.now n k r mask d sets.old sets.new }
{
    if book_progression::progress(book, k, r, mask, d, &mut sets[COMBINED..COMBINED + n]) {
        return 1;
    }
    0
}

// The same: in place where it may be; else what stands so far where nothing comes of the node.
fn combine_node(
    book: &[u8],
    n: usize,
    k: usize,
    r: Tick,
    mask: usize,
    d: Tick,
    count: usize,
    sets: &mut [u8],
    room: &mut [u8],
) -> usize
    requires { CombineReady book.now n k r mask count sets.old room.old }
    ensures { NodeCombined result book.now n k r mask d count sets.old room.old sets.new room.new }
{
    if count == 1 && gives_one(book, k) {
        return combine_in_place(book, n, k, r, mask, d, sets);
    }
    if let Look::Passes = looks(book, k, r, mask, d) {
        return count;
    }
    combine_general(book, n, k, r, mask, d, count, sets, room)
}

// Node k is combined with what stands so far if its cell says that it is pending.
fn combine_cell(
    book: &[u8],
    n: usize,
    k: usize,
    cell: u8,
    mask: usize,
    d: Tick,
    count: usize,
    sets: &mut [u8],
    room: &mut [u8],
) -> usize
    requires step_ready { StepReady book.now n mask count sets.old room.old }
    requires k_lt_n { k < n }
    ensures { CellCombined result book.now n k cell mask d count sets.old room.old sets.new room.new }
{
    let Some(r) = book_progression::pending(cell) else {
        return count;
    };
    combine_node(book, n, k, r, mask, d, count, sets, room)
}

// Every pending node of the old alternative is combined with what stands so far. Most cells are empty.
fn combine_nodes(
    book: &[u8],
    n: usize,
    mask: usize,
    d: Tick,
    old: &[u8],
    from: usize,
    count: usize,
    sets: &mut [u8],
    room: &mut [u8],
) -> usize
    requires step_ready { StepReady book.now n mask count sets.old room.old }
    requires n_in_bounds { from + n ≤ length old.now }
    ensures { NodesCombined result book.now n mask d old.now from count sets.old room.old sets.new room.new }
{
    let mut left = count;
    let mut k = 0;
    while k < n {
        left = combine_cell(book, n, k, old[from + k], mask, d, left, sets, room);
        k = book_progression::past_empty(old, from, n, k + 1);
    }
    left
}

// Line i is combined with what stands so far, if it is an `always` line. Most lines pass at most states.
fn combine_line(
    book: &[u8],
    n: usize,
    i: usize,
    mask: usize,
    d: Tick,
    count: usize,
    sets: &mut [u8],
    room: &mut [u8],
) -> usize
    requires line { IsLine book.now i }
    requires n_value { n ≡ nodes_in book.now }
    requires step_ready { StepReady book.now n mask count sets.old room.old }
    ensures { LineCombined result book.now n i mask d count sets.old room.old sets.new room.new }
{
    if line::form(book, i) != line::ALWAYS {
        return count;
    }
    let k = line::formula(book, i);
    if book_progression::passes(book, k, mask) {
        return count;
    }
    combine_node(book, n, k, node::fresh(book, k), mask, d, count, sets, room)
}

// Each of the lines in turn.
fn combine_lines(
    book: &[u8],
    n: usize,
    mask: usize,
    d: Tick,
    count: usize,
    sets: &mut [u8],
    room: &mut [u8],
) -> usize
    requires held { IsHeld book.now }
    requires n_value { n ≡ nodes_in book.now }
    requires step_ready { StepReady book.now n mask count sets.old room.old }
    ensures { LinesCombined result book.now n mask d count sets.old room.old sets.new room.new }
{
    let lines = line::count(book);
    let mut left = count;
    for i in 0..lines {
        left = combine_line(book, n, i, mask, d, left, sets, room);
    }
    left
}

// Nothing is pending in the one alternative of the set that is combined so far.
fn combine_none(n: usize, sets: &mut [u8])
    requires n_bound { n ≤ 60 }
    requires sets_size_in_bounds { sets_size ≤ length sets.old }
    ensures { NoneCombined n sets.old sets.new }
{
    area_bytes::clear(&mut sets[COMBINED..COMBINED + n]);
}

// What comes of one old alternative: from nothing, its pending nodes by number, then the lines.
fn behind(
    book: &[u8],
    n: usize,
    mask: usize,
    d: Tick,
    old: &[u8],
    from: usize,
    sets: &mut [u8],
    room: &mut [u8],
) -> usize
    requires { AlternativeReady book.now n old.now from sets.old room.old }
    ensures { Behind result book.now n mask d old.now from sets.old room.old sets.new room.new }
{
    combine_none(n, sets);
    let left = combine_nodes(book, n, mask, d, old, from, 1, sets, room);
    combine_lines(book, n, mask, d, left, sets, room)
}

// The set that is joined so far becomes that which was combined, if that has at most 16.
fn copy_combined(next: usize, sets: &mut [u8])
    requires { sets_size ≤ length sets.old }
    ensures { CombinedCopied next sets.old sets.new }
{
    if 16 < next {
        return;
    }
    let size = SIZE * next;
    for k in 0..size {
        sets[JOINED + k] = sets[COMBINED + k];
    }
}

// It is joined with what stands so far, of which there are `count`; if there are none, it is copied.
fn join_behind(
    book: &[u8],
    n: usize,
    mask: usize,
    d: Tick,
    old: &[u8],
    from: usize,
    count: usize,
    sets: &mut [u8],
    room: &mut [u8],
) -> usize
    requires alternative_ready { AlternativeReady book.now n old.now from sets.old room.old }
    requires joined_stands { JoinedStands book.now n mask count sets.old }
    ensures { BehindJoined result book.now n mask d old.now from count sets.old room.old sets.new room.new }
{
    let next = behind(book, n, mask, d, old, from, sets, room);
    if count == 0 {
        copy_combined(next, sets);
        return next;
    }
    set_bytes::join(book, n, sets, JOINED, count, COMBINED, next, JOINED, room)
}

// A state with these marks is left by a step of length d: what comes of the old alternatives, in their
// order, joined one after the other in the set at JOINED. Answers how many are left, 0 if the step is
// broken, and 17 for over 16.
pub fn progressed(
    book: &[u8],
    mask: usize,
    d: Tick,
    old: &[u8],
    from: usize,
    count: usize,
    sets: &mut [u8],
    room: &mut [u8],
) -> usize
    requires held { IsHeld book.now }
    requires count_in_bounds { from + 60 * count ≤ length old.now }
    requires sets_size_in_bounds { sets_size ≤ length sets.old }
    requires candidates_size_in_bounds { candidates_size ≤ length room.old }
    ensures { Progressed result book.now mask d old.now from count room.old sets.new room.new }
{
    let n = book_progression::node_count(book);
    let mut left = 0;
    for i in 0..count {
        left = join_behind(book, n, mask, d, old, from + SIZE * i, left, sets, room);
    }
    left
}

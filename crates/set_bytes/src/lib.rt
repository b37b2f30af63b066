// Sets of alternatives as bytes (02, item 3; specs/SetBytes.antt): which of two alternatives asks more,
// their order, and how two sets are combined and joined. A combination writes its candidates to the
// room, and the numbers of those that stay, in their order, to a short list of its own: so nothing is
// moved but numbers.
#![tactic(auto)]

ghost use Rattle.std.specs.Prelude.{◌+◌, ◌*◌, ◌<◌, ◌≤◌, length};
ghost use Rattle.book_progression.specs.Promises.{HasNodes};
ghost use Rattle.set_bytes.specs.SetBytes.{alternative_size, set_size, most_candidates, candidates_size, copy_of, copies_of, pair_of, row_of, pairs_of};
ghost use Rattle.set_bytes.specs.Promises.{LookedOver, Without, IsPlace, Moved, Placed, Replaced, Added, Gathered, AllTaken, EitherGathered, PutOut, Finished, Combines, JoinsSets, SetsReady, RoomFor};

use alternative_bytes::{Relation, related};

// From one alternative to the next.
const SIZE: usize = 60;

// The most alternatives of a set, and the answer for more.
const MOST: usize = 16;

pub const OVER: usize = 17;

// ---- the chosen candidates

// How the m chosen are related to candidate c: NoMore if one of them asks no more; else Apart if of none
// of them c asks no more, and NoLess if of some.
fn look_over(book: &[u8], n: usize, room: &[u8], order: &[u8], m: usize, c: usize) -> Relation
    requires has_nodes { HasNodes book.now n }
    requires n_le_alternative_size { n ≤ alternative_size }
    requires candidates_size_in_bounds { candidates_size ≤ length room.now }
    requires m_in_bounds { m ≤ length order.now }
    requires c_lt_most_candidates { c < most_candidates }
    ensures { LookedOver result book.now n room.now order.now m c }
{
    let mut found = Relation::Apart;
    for i in 0..m {
        match related(book, n, room, SIZE * (order[i] as usize), SIZE * c) {
            Relation::NoMore => return Relation::NoMore,
            Relation::NoLess => found = Relation::NoLess,
            Relation::Apart => {}
        }
    }
    found
}

// Drops those of the m chosen of which candidate c asks no more. Answers how many are left.
fn drop_needless(book: &[u8], n: usize, room: &[u8], order: &mut [u8], m: usize, c: usize) -> usize
    requires has_nodes { HasNodes book.now n }
    requires n_le_alternative_size { n ≤ alternative_size }
    requires candidates_size_in_bounds { candidates_size ≤ length room.now }
    requires m_in_bounds { m ≤ length order.old }
    requires c_lt_most_candidates { c < most_candidates }
    ensures { Without result book.now n room.now order.old m c order.new }
{
    let mut left = 0;
    for i in 0..m {
        let number = order[i];
        if !alternative_bytes::asks_no_more(book, n, room, SIZE * c, SIZE * (number as usize)) {
            order[left] = number;
            left += 1;
        }
    }
    left
}

// Where candidate c belongs among the m chosen: before the first that it is earlier than.
fn place_of(n: usize, room: &[u8], order: &[u8], m: usize, c: usize) -> usize
    requires n_le_alternative_size { n ≤ alternative_size }
    requires candidates_size_in_bounds { candidates_size ≤ length room.now }
    requires m_in_bounds { m ≤ length order.now }
    requires c_lt_most_candidates { c < most_candidates }
    ensures { IsPlace result n room.now order.now m c }
{
    for i in 0..m {
        if alternative_bytes::comes_earlier(n, room, SIZE * c, SIZE * (order[i] as usize)) {
            return i;
        }
    }
    m
}

// Moves the numbers from place `at` on, up to the m-th, one place on.
fn make_place(order: &mut [u8], m: usize, at: usize)
    requires m_in_bounds { m < length order.old }
    requires at_le_m { at ≤ m }
    ensures { Moved order.old m at order.new }
{
    order.copy_within(at..m, at + 1);
}

// Candidate c takes its place among the m chosen.
fn place(n: usize, room: &[u8], order: &mut [u8], m: usize, c: usize)
    requires n_le_alternative_size { n ≤ alternative_size }
    requires candidates_size_in_bounds { candidates_size ≤ length room.now }
    requires m_in_bounds { m < length order.old }
    requires c_lt_most_candidates { c < most_candidates }
    ensures { Placed n room.now order.old m c order.new }
{
    let at = place_of(n, room, order, m, c);
    make_place(order, m, at);
    order[at] = c as u8;
}

// Candidate c takes its place among those of the m chosen that are not needless beside it. Answers how
// many are chosen then.
fn replace(book: &[u8], n: usize, room: &[u8], order: &mut [u8], m: usize, c: usize) -> usize
    requires has_nodes { HasNodes book.now n }
    requires n_le_alternative_size { n ≤ alternative_size }
    requires candidates_size_in_bounds { candidates_size ≤ length room.now }
    requires m_in_bounds { m < length order.old }
    requires c_lt_most_candidates { c < most_candidates }
    ensures { Replaced result book.now n room.now order.old m c order.new }
{
    let left = drop_needless(book, n, room, order, m, c);
    place(n, room, order, left, c);
    left + 1
}

// One more candidate: it is dropped if one of the m chosen asks no more, and else takes its place
// among those that stay. Most often all stay. Answers how many are chosen then.
pub fn add(book: &[u8], n: usize, room: &[u8], order: &mut [u8], m: usize, c: usize) -> usize
    requires has_nodes { HasNodes book.now n }
    requires n_le_alternative_size { n ≤ alternative_size }
    requires candidates_size_in_bounds { candidates_size ≤ length room.now }
    requires m_in_bounds { m < length order.old }
    requires c_lt_most_candidates { c < most_candidates }
    ensures { Added result book.now n room.now order.old m c order.new }
{
    match look_over(book, n, room, order, m, c) {
        Relation::NoMore => m,
        Relation::NoLess => replace(book, n, room, order, m, c),
        Relation::Apart => {
            place(n, room, order, m, c);
            m + 1
        }
    }
}

// ---- sets

// The alternative at p together with that at q: candidate c, among m chosen. Answers how many are
// chosen then.
fn gather_pair(
    book: &[u8],
    n: usize,
    sets: &[u8],
    p: usize,
    q: usize,
    room: &mut [u8],
    order: &mut [u8],
    m: usize,
    c: usize,
) -> usize
    requires has_nodes { HasNodes book.now n }
    requires room_for { RoomFor 1 n room.old order.old m c }
    requires alternative_size_in_bounds { p + alternative_size ≤ length sets.now }
    requires alternative_size_in_bounds_2 { q + alternative_size ≤ length sets.now }
    ensures { Gathered result book.now n (pair_of sets.now n p q) room.old order.old m c 1 room.new order.new }
{
    alternative_bytes::put_both(book, n, sets, p, q, room, SIZE * c);
    add(book, n, room, order, m, c)
}

// The alternative at p together with each of the b from q on: candidates from number c on, among m
// chosen.
fn gather_row(
    book: &[u8],
    n: usize,
    sets: &[u8],
    p: usize,
    q: usize,
    b: usize,
    room: &mut [u8],
    order: &mut [u8],
    m: usize,
    c: usize,
) -> usize
    requires has_nodes { HasNodes book.now n }
    requires room_for { RoomFor b n room.old order.old m c }
    requires alternative_size_in_bounds { p + alternative_size ≤ length sets.now }
    requires set_size_in_bounds { q + set_size ≤ length sets.now }
    requires b_bound { b ≤ 16 }
    ensures { Gathered result book.now n (row_of sets.now n p q b) room.old order.old m c b room.new order.new }
{
    let mut left = m;
    for j in 0..b {
        left = gather_pair(book, n, sets, p, q + SIZE * j, room, order, left, c + j);
    }
    left
}

// Each of the a alternatives from p on together with each of the b from q on.
fn gather_pairs(
    book: &[u8],
    n: usize,
    sets: &[u8],
    p: usize,
    a: usize,
    q: usize,
    b: usize,
    room: &mut [u8],
    order: &mut [u8],
) -> usize
    requires has_nodes { HasNodes book.now n }
    requires room_for { RoomFor 256 n room.old order.old 0 0 }
    requires set_size_in_bounds { p + set_size ≤ length sets.now }
    requires set_size_in_bounds_2 { q + set_size ≤ length sets.now }
    requires a_bound { a ≤ 16 }
    requires b_bound { b ≤ 16 }
    ensures { Gathered result book.now n (pairs_of sets.now n p a q b) room.old order.old 0 0 (b * a) room.new order.new }
{
    let mut left = 0;
    for i in 0..a {
        left = gather_row(book, n, sets, p + SIZE * i, q, b, room, order, left, b * i);
    }
    left
}

// The alternative at p: candidate c, among m chosen.
fn gather_copy(
    book: &[u8],
    n: usize,
    sets: &[u8],
    p: usize,
    room: &mut [u8],
    order: &mut [u8],
    m: usize,
    c: usize,
) -> usize
    requires has_nodes { HasNodes book.now n }
    requires room_for { RoomFor 1 n room.old order.old m c }
    requires alternative_size_in_bounds { p + alternative_size ≤ length sets.now }
    ensures { Gathered result book.now n (copy_of sets.now n p) room.old order.old m c 1 room.new order.new }
{
    alternative_bytes::copy(n, sets, p, room, SIZE * c);
    add(book, n, room, order, m, c)
}

// Each of the a alternatives from p on: candidates from number c on, among m chosen.
fn gather_copies(
    book: &[u8],
    n: usize,
    sets: &[u8],
    p: usize,
    a: usize,
    room: &mut [u8],
    order: &mut [u8],
    m: usize,
    c: usize,
) -> usize
    requires has_nodes { HasNodes book.now n }
    requires room_for { RoomFor a n room.old order.old m c }
    requires set_size_in_bounds { p + set_size ≤ length sets.now }
    requires a_bound { a ≤ 16 }
    ensures { Gathered result book.now n (copies_of sets.now n p a) room.old order.old m c a room.new order.new }
{
    let mut left = m;
    for i in 0..a {
        left = gather_copy(book, n, sets, p + SIZE * i, room, order, left, c + i);
    }
    left
}

// Each of the a alternatives from p on is a candidate, and chosen, in their order: nothing is compared.
fn take_copies(n: usize, sets: &[u8], p: usize, a: usize, room: &mut [u8], order: &mut [u8])
    requires room_for { RoomFor 256 n room.old order.old 0 0 }
    requires set_size_in_bounds { p + set_size ≤ length sets.now }
    requires a_bound { a ≤ 16 }
    ensures { AllTaken n sets.now p a room.old order.old room.new order.new }
{
    for i in 0..a {
        alternative_bytes::copy(n, sets, p + SIZE * i, room, SIZE * i);
        order[i] = i as u8;
    }
}

// Beside the a alternatives from p on, which are taken as they are, each of the b from q on.
fn gather_either(
    book: &[u8],
    n: usize,
    sets: &[u8],
    p: usize,
    a: usize,
    q: usize,
    b: usize,
    room: &mut [u8],
    order: &mut [u8],
) -> usize
    requires has_nodes { HasNodes book.now n }
    requires room_for { RoomFor 256 n room.old order.old 0 0 }
    requires set_size_in_bounds { p + set_size ≤ length sets.now }
    requires set_size_in_bounds_2 { q + set_size ≤ length sets.now }
    requires a_bound { a ≤ 16 }
    requires b_bound { b ≤ 16 }
    ensures { EitherGathered result book.now n sets.now p a q b room.old order.old room.new order.new }
{
    take_copies(n, sets, p, a, room, order);
    gather_copies(book, n, sets, q, b, room, order, a, a)
}

// Writes the r chosen to the set at `to`.
fn put_out(n: usize, room: &[u8], order: &[u8], r: usize, sets: &mut [u8], to: usize)
    requires n_le_alternative_size { n ≤ alternative_size }
    requires candidates_size_in_bounds { candidates_size ≤ length room.now }
    requires r_in_bounds { r ≤ length order.now }
    requires r_bound { r ≤ 16 }
    requires set_size_in_bounds { to + set_size ≤ length sets.old }
    ensures { PutOut n room.now order.now r sets.old to sets.new }
{
    for i in 0..r {
        alternative_bytes::copy(n, room, SIZE * (order[i] as usize), sets, to + SIZE * i);
    }
}

// Counts those left and, if they are at most 16, writes them to the set at `to`. Answers how many
// there are, or 17 for over 16.
fn finish(n: usize, room: &[u8], order: &[u8], left: usize, sets: &mut [u8], to: usize) -> usize
    requires n_le_alternative_size { n ≤ alternative_size }
    requires candidates_size_in_bounds { candidates_size ≤ length room.now }
    requires left_in_bounds { left ≤ length order.now }
    requires set_size_in_bounds { to + set_size ≤ length sets.old }
    ensures { Finished result n room.now order.now left sets.old to sets.new }
{
    if MOST < left {
        return OVER;
    }
    put_out(n, room, order, left, sets, to);
    left
}

// Two sets of at most 16 that are both to be met: what is left is written to the set at `to`.
fn combine_by(
    book: &[u8],
    n: usize,
    sets: &mut [u8],
    p: usize,
    a: usize,
    q: usize,
    b: usize,
    to: usize,
    room: &mut [u8],
    order: &mut [u8; 256],
) -> usize
    requires has_nodes { HasNodes book.now n }
    requires sets_ready { SetsReady n sets.old p q to room.old }
    requires a_bound { a ≤ 16 }
    requires b_bound { b ≤ 16 }
    ensures { Combines result book.now n sets.old p a q b to room.old sets.new room.new }
{
    let left = gather_pairs(book, n, sets, p, a, q, b, room, order);
    finish(n, room, order, left, sets, to)
}

// Two sets that are both to be met: that of a alternatives at p and that of b at q. What is left is
// written to the set at `to`, which may be one of the two. Answers how many are left, or 17 for over
// 16; 17 alternatives are over 16 too.
pub fn combine(
    book: &[u8],
    n: usize,
    sets: &mut [u8],
    p: usize,
    a: usize,
    q: usize,
    b: usize,
    to: usize,
    room: &mut [u8],
) -> usize
    requires has_nodes { HasNodes book.now n }
    requires sets_ready { SetsReady n sets.old p q to room.old }
    ensures { Combines result book.now n sets.old p a q b to room.old sets.new room.new }
{
    if MOST < a {
        return OVER;
    }
    if MOST < b {
        return OVER;
    }
    let mut order = [0; 256];
    combine_by(book, n, sets, p, a, q, b, to, room, &mut order)
}

// Two sets of at most 16 of which either is to be met, the first with nothing to drop, in the same way.
fn join_by(
    book: &[u8],
    n: usize,
    sets: &mut [u8],
    p: usize,
    a: usize,
    q: usize,
    b: usize,
    to: usize,
    room: &mut [u8],
    order: &mut [u8; 256],
) -> usize
    requires has_nodes { HasNodes book.now n }
    requires sets_ready { SetsReady n sets.old p q to room.old }
    requires a_bound { a ≤ 16 }
    requires b_bound { b ≤ 16 }
    ensures { JoinsSets result book.now n sets.old p a q b to room.old sets.new room.new }
{
    let left = gather_either(book, n, sets, p, a, q, b, room, order);
    finish(n, room, order, left, sets, to)
}

// Two sets of which either is to be met, in the same way. The first has nothing to drop, as every set
// that was combined or joined: its alternatives are not compared with each other.
pub fn join(
    book: &[u8],
    n: usize,
    sets: &mut [u8],
    p: usize,
    a: usize,
    q: usize,
    b: usize,
    to: usize,
    room: &mut [u8],
) -> usize
    requires has_nodes { HasNodes book.now n }
    requires sets_ready { SetsReady n sets.old p q to room.old }
    ensures { JoinsSets result book.now n sets.old p a q b to room.old sets.new room.new }
{
    if MOST < a {
        return OVER;
    }
    if MOST < b {
        return OVER;
    }
    let mut order = [0; 256];
    join_by(book, n, sets, p, a, q, b, to, room, &mut order)
}

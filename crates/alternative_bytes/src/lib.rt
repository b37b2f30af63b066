// An alternative as bytes (02, item 3), a byte for each node: which of two asks more, which comes first,
// and both as one.
#![tactic(auto)]

ghost use Rattle.std.specs.Prelude.{◌+◌, ◌≤◌, ◌≡◌, length};
ghost use Rattle.alternatives.specs.Alternatives.{earlier};
ghost use Rattle.book_progression.specs.NodeBytes.{IsNode};
ghost use Rattle.book_progression.specs.Promises.{HasNodes};
ghost use Rattle.alternative_bytes.specs.AlternativeBytes.{alternative_in};
ghost use Rattle.alternative_bytes.specs.Promises.{CellNoMore, EqualTo, DifferAt, NoMore, Related, CellBoth, BothPut, Copied};

use area_bytes::eight_bytes;
use book_progression::{merged, node, past_empty, pending};

// How two alternatives are related: the first asks no more; only the second asks no more; each asks more
// somewhere.
#[derive(Clone, Copy, PartialEq, Eq)]
pub enum Relation {
    NoMore,
    NoLess,
    Apart,
}

// Whether of node k a cell asks no more than another: nothing asks least, of A the smaller number asks
// less, of U the larger; no other node has two numbers.
fn cell_no_more(book: &[u8], k: usize, cell: u8, other: u8) -> bool
    requires { IsNode book.now k }
    ensures { CellNoMore result book.now k cell other }
{
    let Some(r) = pending(cell) else {
        return true;
    };
    let Some(q) = pending(other) else {
        return false;
    };
    match node::code(book, k) {
        node::ALWAYS => r <= q,
        node::UNTIL => q <= r,
        _ => r == q,
    }
}

// Passes over equal bytes, eight at a time, in the alternatives at p and q: those from k to the answer
// are equal.
fn past_eights(n: usize, area: &[u8], p: usize, q: usize, k: usize) -> usize
    requires n_in_bounds { p + n ≤ length area.now }
    requires n_in_bounds_2 { q + n ≤ length area.now }
    requires k_le_n { k ≤ n }
    ensures { EqualTo n area.now p q k result }
{
    let mut i = k;
    while 8 <= n - i {
        if eight_bytes(area, p + i) != eight_bytes(area, q + i) {
            return i;
        }
        i += 8;
    }
    i
}

// Passes over equal bytes to the next two that differ, or to the end.
fn next_difference(n: usize, area: &[u8], p: usize, q: usize, k: usize) -> usize
    requires n_in_bounds { p + n ≤ length area.now }
    requires n_in_bounds_2 { q + n ≤ length area.now }
    requires k_le_n { k ≤ n }
    ensures { DifferAt n area.now p q k result }
{
    for i in past_eights(n, area, p, q, k)..n {
        if area[p + i] != area[q + i] {
            return i;
        }
    }
    n
}

// Whether the alternative at p asks no more than that at q at any node, the first two bytes that differ
// being known: where their bytes are equal it does not.
fn asks_from(book: &[u8], n: usize, area: &[u8], p: usize, q: usize, first: usize) -> bool
    requires has_nodes { HasNodes book.now n }
    requires n_in_bounds { p + n ≤ length area.now }
    requires n_in_bounds_2 { q + n ≤ length area.now }
    requires differ_at { DifferAt n area.now p q 0 first }
    ensures { NoMore result book.now n area.now p q }
{
    let mut k = first;
    while k < n {
        if !cell_no_more(book, k, area[p + k], area[q + k]) {
            return false;
        }
        k = next_difference(n, area, p, q, k + 1);
    }
    true
}

// Whether the alternative at p asks no more than that at q at any node.
pub fn asks_no_more(book: &[u8], n: usize, area: &[u8], p: usize, q: usize) -> bool
    requires has_nodes { HasNodes book.now n }
    requires n_in_bounds { p + n ≤ length area.now }
    requires n_in_bounds_2 { q + n ≤ length area.now }
    ensures { NoMore result book.now n area.now p q }
{
    let first = next_difference(n, area, p, q, 0);
    asks_from(book, n, area, p, q, first)
}

// Whether the alternative at p asks no more than that at q, else whether that at q asks no more, or
// neither. What they have in common is passed over once.
pub fn related(book: &[u8], n: usize, area: &[u8], p: usize, q: usize) -> Relation
    requires has_nodes { HasNodes book.now n }
    requires n_in_bounds { p + n ≤ length area.now }
    requires n_in_bounds_2 { q + n ≤ length area.now }
    ensures { Related result book.now n area.now p q }
{
    let first = next_difference(n, area, p, q, 0);
    if asks_from(book, n, area, p, q, first) {
        return Relation::NoMore;
    }
    if asks_from(book, n, area, q, p, first) {
        return Relation::NoLess;
    }
    Relation::Apart
}

// Whether the alternative at p comes before that at q: the lowest node of which they say two things
// decides.
pub fn comes_earlier(n: usize, area: &[u8], p: usize, q: usize) -> bool
    requires n_in_bounds { p + n ≤ length area.now }
    requires n_in_bounds_2 { q + n ≤ length area.now }
    ensures { result ≡ earlier (alternative_in area.now n p) (alternative_in area.now n q) }
{
    let k = next_difference(n, area, p, q, 0);
    k < n && area[p + k] < area[q + k]
}

// What both cells ask of node k.
fn both_cell(book: &[u8], k: usize, cell: u8, other: u8) -> u8
    requires { IsNode book.now k }
    ensures { CellBoth result book.now k cell other }
{
    let Some(r) = pending(other) else {
        return cell;
    };
    book_progression::cell(merged(book, k, r, cell))
}

// The alternative at `to` of the room becomes that at p of the other area.
pub fn copy(n: usize, area: &[u8], p: usize, room: &mut [u8], to: usize)
    requires n_in_bounds { p + n ≤ length area.now }
    requires n_in_bounds_2 { to + n ≤ length room.old }
    ensures { Copied n area.now p room.old to room.new }
{
    for k in 0..n {
        room[to + k] = area[p + k];
    }
}

// The alternative at `to` of the room becomes both of those at p and q: where the cell at q is empty,
// both are that at p.
pub fn put_both(book: &[u8], n: usize, sets: &[u8], p: usize, q: usize, room: &mut [u8], to: usize)
    requires has_nodes { HasNodes book.now n }
    requires n_in_bounds { p + n ≤ length sets.now }
    requires n_in_bounds_2 { q + n ≤ length sets.now }
    requires n_in_bounds_3 { to + n ≤ length room.old }
    ensures { BothPut book.now n sets.now p q room.old to room.new }
{
    copy(n, sets, p, room, to);
    let mut k = past_empty(sets, q, n, 0);
    while k < n {
        room[to + k] = both_cell(book, k, sets[p + k], sets[q + k]);
        k = past_empty(sets, q, n, k + 1);
    }
}

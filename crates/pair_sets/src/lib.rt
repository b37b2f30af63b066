// Entries that hold a pair: the number of its state, and its alternatives (specs/PairSets.antt).
#![tactic(auto)]

ghost use Rattle.std.specs.Prelude.{◌+◌, ◌*◌, ◌<◌, ◌≤◌, ◌≡◌, true, length};
ghost use Rattle.reading.specs.BookArea.{nodes_in};
ghost use Rattle.alternatives.specs.Alternatives.{these};
ghost use Rattle.book_progression.specs.NodeBytes.{IsHeld};
ghost use Rattle.set_bytes.specs.SetBytes.{set_in};
ghost use Rattle.set_index.specs.Entries.{alternative_bytes, alternatives_room, most_entries, entries_size, index_size, entry_first, Headed, Indexed};
ghost use Rattle.pair_sets.specs.PairSets.{entry_set, Entered, Followed, Noted, First, Open, Repeated, Taken};

use logic::Tick;

// The bytes of an alternative.
const SIZE: usize = 60;

// Which of the entries one is equal to, and how many there are with it.
#[derive(Clone, Copy)]
pub struct Place {
    pub at: usize,
    pub met: usize,
}

// A state with these marks is left by a step of length d: what is pending in the one alternative of
// entry i progresses into entry n, which gets the number. False if the step is broken; then entry n is
// of no use.
pub fn follow(
    nodes: &[u8],
    mask: usize,
    d: Tick,
    entries: &mut [u8],
    i: usize,
    number: usize,
    n: usize,
) -> bool
    requires fact { Open nodes.now entries.old n }
    requires i_lt_n { i < n }
    requires i_value { entry_first entries.old (i + 1) ≡ entry_first entries.old i + 1 }
    requires number_bound { number < 65536 }
    ensures { Followed result nodes.now mask d entries.old i number n entries.new }
{
    let free = set_index::first(entries, n);
    let from = SIZE * set_index::first(entries, i);
    if !book_progression::progressed(nodes, mask, d, entries, from, SIZE * free) {
        return false;
    }
    set_index::put_head(entries, n, number, free + 1);
    true
}

// So many alternatives from t on become those from s on, which lie before them.
fn copy_alternatives(entries: &mut [u8], s: usize, t: usize, count: usize)
    requires count_bound { s + count ≤ t }
    requires count_bound_2 { t + count ≤ alternatives_room }
    requires entries_size_in_bounds { entries_size ≤ length entries.old }
    ensures { Repeated entries.old s t count entries.new }
{
    let from = SIZE * s;
    let to = SIZE * t;
    entries.copy_within(from..from + SIZE * count, to);
}

// Entry n gets the number and the alternatives of entry j.
pub fn copy(nodes: &[u8], entries: &mut [u8], j: usize, number: usize, n: usize)
    requires fact { Open nodes.now entries.old n }
    requires j_lt_n { j < n }
    requires j_bound { entry_first entries.old (j + 1) ≤ entry_first entries.old j + 16 }
    requires number_bound { number < 65536 }
    ensures { Entered true nodes.now entries.old number n (these (entry_set nodes.now entries.old j)) entries.new }
{
    let free = set_index::first(entries, n);
    let first = set_index::first(entries, j);
    let count = set_index::first(entries, j + 1) - first;
    copy_alternatives(entries, first, free, count);
    set_index::put_head(entries, n, number, free + count);
}

// So many alternatives from t on become those that lie from `at` on in another area, a byte for each
// node.
fn take_alternatives(
    cells: usize,
    entries: &mut [u8],
    t: usize,
    room: &[u8],
    at: usize,
    count: usize,
)
    requires cells_le_alternative_bytes { cells ≤ alternative_bytes }
    requires count_bound { t + count ≤ alternatives_room }
    requires entries_size_in_bounds { entries_size ≤ length entries.old }
    requires count_in_bounds { at + alternative_bytes * count ≤ length room.now }
    ensures { Taken cells entries.old t room.now at count entries.new }
{
    for j in 0..count {
        alternative_bytes::copy(cells, room, at + SIZE * j, entries, SIZE * (t + j));
    }
}

// Entry n gets the number, and so many alternatives, which lie from `at` on in another area.
pub fn take(
    nodes: &[u8],
    entries: &mut [u8],
    room: &[u8],
    at: usize,
    count: usize,
    number: usize,
    n: usize,
)
    requires fact { Open nodes.now entries.old n }
    requires le_count { 1 ≤ count }
    requires count_bound { count ≤ 16 }
    requires at_in_bounds { at + 960 ≤ length room.now }
    requires number_bound { number < 65536 }
    ensures { Entered true nodes.now entries.old number n (these (set_in room.now (nodes_in nodes.now) at count)) entries.new }
{
    let cells = book_progression::node_count(nodes);
    let free = set_index::first(entries, n);
    take_alternatives(cells, entries, free, room, at, count);
    set_index::put_head(entries, n, number, free + count);
}

// Brings entry n among the first n: where one of them is equal to it that one is meant.
pub fn note(entries: &[u8], index: &mut [u8], n: usize) -> Place
    requires indexed { Indexed entries.now index.old n }
    requires headed { Headed entries.now n }
    requires n_le_most_entries { n ≤ most_entries }
    requires entries_size_in_bounds { entries_size ≤ length entries.now }
    requires index_size_in_bounds { index_size ≤ length index.old }
    ensures { Noted result entries.now n index.new }
{
    let h = set_index::hash(entries, n);
    if let Some(at) = set_index::find(entries, index, n, h) {
        return Place { at, met: n };
    }
    set_index::add(entries, index, n, h);
    Place { at: n, met: n + 1 }
}

// Clears the entries. Entry 0 gets the number, and what is pending when the run begins.
pub fn begin(nodes: &[u8], number: usize, entries: &mut [u8])
    requires held { IsHeld nodes.now }
    requires number_bound { number < 65536 }
    requires entries_size_in_bounds { entries_size ≤ length entries.old }
    ensures { First nodes.now number entries.new }
{
    area_bytes::clear(entries);
    book_progression::begin(nodes, entries, 0);
    set_index::put_head(entries, 0, number, 1);
}

// Entries in a lent area, each a number and one alternative or more, and an index in another by which
// one is found again without a comparison with all of them: specs/Entries.antt. Entry n is the one that
// is looked up, behind n others.
#![tactic(auto)]

ghost use Rattle.std.specs.Prelude.{◌+◌, ◌*◌, ◌<◌, ◌≤◌, ◌≡◌, length, eqb};
ghost use Rattle.std.proofs.lemmas.List.Edits.{sets};
ghost use Rattle.base.specs.Bytes.{number_bytes};
ghost use Rattle.base.specs.Lists.{same_list};
ghost use Rattle.area_chains.specs.Chains.{head_in, link_in};
ghost use Rattle.set_index.specs.Entries.{alternatives_room, most_entries, entry_heads, entries_size, index_size, heads_at, links_at};
ghost use Rattle.set_index.specs.Entries.{entry_number, entry_first, alternative_at, alternatives_at, entry_at, same_entry, FoundEntry, Headed, alternative_hash, hash_of, IsNew, Indexed};

use area_bytes::eight_bytes;

// The bytes of an alternative, and where the heads of the entries begin: number and first alternative.
const SIZE: usize = 60;

const HEADS: usize = 60960;

// Where the last eight bytes of an alternative begin, and how many eights come before they are passed.
const LAST_EIGHT: usize = 52;

const EIGHTS: usize = 7;

// How many four-byte numbers an alternative has, and what they are multiplied by. No product waits for
// another one.
const FOURS: usize = 15;

const FIRST_MULTIPLIER: usize = 521288629;

const MULTIPLIER: usize = 48271;

const MODULUS: usize = 268435456;

const BUCKETS: usize = 3079;

// Where the heads and the links begin in the index.
const HEADS_AT: usize = 0;

const LINKS_AT: usize = 6160;

// The number of entry i.
pub fn number(entries: &[u8], i: usize) -> usize
    requires i_bound { i ≤ most_entries + 1 }
    requires entries_size_in_bounds { entries_size ≤ length entries.now }
    ensures { result ≡ entry_number entries.now i }
{
    area_bytes::two_bytes(entries, HEADS + 4 * i)
}

// Its first alternative.
pub fn first(entries: &[u8], i: usize) -> usize
    requires i_bound { i ≤ most_entries + 1 }
    requires entries_size_in_bounds { entries_size ≤ length entries.now }
    ensures { result ≡ entry_first entries.now i }
{
    area_bytes::two_bytes(entries, HEADS + 4 * i + 2)
}

// Entry n gets the number, and its alternatives end before this one.
pub fn put_head(entries: &mut [u8], n: usize, number: usize, end: usize)
    requires n_le_most_entries { n ≤ most_entries }
    requires entries_size_in_bounds { entries_size ≤ length entries.old }
    ensures { entries.new ≡ sets (sets entries.old (entry_heads + 4 * n) (number_bytes 2 number)) (entry_heads + 4 * n + 6) (number_bytes 2 end) }
{
    area_bytes::put_two_bytes(entries, HEADS + 4 * n, number);
    area_bytes::put_two_bytes(entries, HEADS + 4 * n + 6, end);
}

// The hash of alternative s: its 15 four-byte numbers, each multiplied by a number of its own, are
// added, and the sum is brought below the number of buckets, a prime.
fn alternative_hash(entries: &[u8], s: usize) -> usize
    requires s_lt_alternatives_room { s < alternatives_room }
    requires entries_size_in_bounds { entries_size ≤ length entries.now }
    ensures { result ≡ alternative_hash (alternative_at entries.now s) }
{
    let start = SIZE * s;
    let mut h = 0;
    let mut m = MULTIPLIER;
    for k in 0..FOURS {
        h += m * area_bytes::four_bytes(entries, start + 4 * k);
        m = m * MULTIPLIER % MODULUS;
    }
    h % BUCKETS
}

// The hash of entry i: its number and the hashes of its alternatives.
pub fn hash(entries: &[u8], i: usize) -> usize
    requires headed { Headed entries.now i }
    requires i_le_most_entries { i ≤ most_entries }
    requires entries_size_in_bounds { entries_size ≤ length entries.now }
    ensures { result ≡ hash_of (entry_at entries.now i) }
{
    let end = first(entries, i + 1);
    let mut h = FIRST_MULTIPLIER * number(entries, i);
    for s in first(entries, i)..end {
        h += alternative_hash(entries, s);
    }
    h % BUCKETS
}

// Whether alternatives s and t are equal: eight bytes at a time, and the last eight, some of them again.
// Most that are compared are equal, so the loop goes on where they differ.
fn same_alternative(entries: &[u8], s: usize, t: usize) -> bool
    requires s_lt_alternatives_room { s < alternatives_room }
    requires t_lt_alternatives_room { t < alternatives_room }
    requires entries_size_in_bounds { entries_size ≤ length entries.now }
    ensures { result ≡ same_list eqb (alternative_at entries.now s) (alternative_at entries.now t) }
{
    let one = SIZE * s;
    let other = SIZE * t;
    let last = eight_bytes(entries, one + LAST_EIGHT);
    let mut equal = last == eight_bytes(entries, other + LAST_EIGHT);
    for k in 0..EIGHTS {
        if eight_bytes(entries, one + 8 * k) != eight_bytes(entries, other + 8 * k) {
            equal = false;
        }
    }
    equal
}

// Whether so many alternatives from s on and from t on are equal, each to each.
fn same_alternatives(entries: &[u8], s: usize, t: usize, count: usize) -> bool
    requires count_bound { s + count ≤ alternatives_room }
    requires count_bound_2 { t + count ≤ alternatives_room }
    requires entries_size_in_bounds { entries_size ≤ length entries.now }
    ensures { result ≡ same_list (same_list eqb) (alternatives_at entries.now s count) (alternatives_at entries.now t count) }
{
    for k in 0..count {
        if !same_alternative(entries, s + k, t + k) {
            return false;
        }
    }
    true
}

// Whether entries i and j are equal.
pub fn same(entries: &[u8], i: usize, j: usize) -> bool
    requires headed { Headed entries.now i }
    requires i_le_most_entries { i ≤ most_entries }
    requires j_le_i { j ≤ i }
    requires entries_size_in_bounds { entries_size ≤ length entries.now }
    ensures { result ≡ same_entry (entry_at entries.now i) (entry_at entries.now j) }
{
    if number(entries, i) != number(entries, j) {
        return false;
    }
    let s = first(entries, i);
    let t = first(entries, j);
    let count = first(entries, i + 1) - s;
    if first(entries, j + 1) - t != count {
        return false;
    }
    same_alternatives(entries, s, t, count)
}

// The head of the bucket of entry n, whose hash is h: the last entry before n with the same hash, plus
// one, or 0.
fn head(entries: &[u8], index: &[u8], n: usize, h: usize) -> usize
    requires h_value { h ≡ hash_of (entry_at entries.now n) }
    requires index_size_in_bounds { index_size ≤ length index.now }
    ensures { result ≡ head_in heads_at index.now (hash_of (entry_at entries.now n)) }
{
    area_chains::head(index, HEADS_AT, h)
}

// The link of entry i: the last entry before i with the same hash, plus one, or 0.
fn link(index: &[u8], i: usize) -> usize
    requires i_lt_most_entries { i < most_entries }
    requires index_size_in_bounds { index_size ≤ length index.now }
    ensures { result ≡ link_in links_at index.now i }
{
    area_chains::link(index, LINKS_AT, i)
}

// The number of the one among n entries that is equal to entry n, whose hash is h, if there is one.
pub fn find(entries: &[u8], index: &[u8], n: usize, h: usize) -> Option<usize>
    requires indexed { Indexed entries.now index.now n }
    requires h_value { h ≡ hash_of (entry_at entries.now n) }
    requires headed { Headed entries.now n }
    requires n_le_most_entries { n ≤ most_entries }
    requires entries_size_in_bounds { entries_size ≤ length entries.now }
    requires index_size_in_bounds { index_size ≤ length index.now }
    ensures { FoundEntry entries.now n result }
{
    let mut at = head(entries, index, n, h);
    while 0 < at {
        let i = at - 1;
        if same(entries, n, i) {
            return Some(i);
        }
        at = link(index, i);
    }
    None
}

// Brings entry n, whose hash is h, into the index; it is a new one.
pub fn add(entries: &[u8], index: &mut [u8], n: usize, h: usize)
    requires indexed { Indexed entries.now index.old n }
    requires h_value { h ≡ hash_of (entry_at entries.now n) }
    requires new { IsNew entries.now n }
    requires headed { Headed entries.now n }
    requires n_le_most_entries { n ≤ most_entries }
    requires entries_size_in_bounds { entries_size ≤ length entries.now }
    requires index_size_in_bounds { index_size ≤ length index.old }
    ensures { Indexed entries.now index.new (n + 1) }
{
    area_chains::add(index, HEADS_AT, LINKS_AT, h, n);
}

// Empties the index and brings entry 0 into it.
pub fn begin(entries: &[u8], index: &mut [u8])
    requires headed { Headed entries.now 0 }
    requires entries_size_in_bounds { entries_size ≤ length entries.now }
    requires index_size_in_bounds { index_size ≤ length index.old }
    ensures { Indexed entries.now index.new 1 }
{
    area_bytes::clear(index);
    let h = hash(entries, 0);
    add(entries, index, 0, h);
}

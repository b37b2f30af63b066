// How much of a file a program reads: one byte more than the longest fit file has. The answer is then
// that for the whole file (proofs/Cut.antt), so that a file that is too long is refused, and not cut.
#![tactic(auto)]

ghost use Rattle.std.specs.Prelude.{suc, ◌≡◌};
ghost use Rattle.logic.specs.Tower.{narrow};
ghost use Rattle.reading.specs.BookReading.{most_bytes};
ghost use Rattle.program_limits.specs.Longest.{longest_tower, longest_table};

pub const TOWER: usize = 3641;

pub const BOOK: usize = 4097;

pub const TABLE: usize = 52013;

// What is read of a tower: one byte more than the longest has.
pub fn tower() -> usize
    ensures { result ≡ suc (longest_tower narrow) }
{
    TOWER
}

// What is read of a book.
pub fn book() -> usize
    ensures { result ≡ suc most_bytes }
{
    BOOK
}

// What is read of a table.
pub fn table() -> usize
    ensures { result ≡ suc (longest_table narrow) }
{
    TABLE
}

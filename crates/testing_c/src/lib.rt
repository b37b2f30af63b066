// What testing has, as an archive for tests and benchmarks in other languages, which no product links: each function calls
// the one of its name there, and promises what that one promises.
#![tactic(auto)]

ghost use Rattle.std.specs.Prelude.{◌+◌, ◌≤◌, ◌≡◌, length};
ghost use Rattle.logic.specs.Time.{ticks};
ghost use Rattle.reading.specs.BookArea.{nodes_in};
ghost use Rattle.reading.specs.TableReading.{laid_out};
ghost use Rattle.reading.specs.TowerReading.{read_tower};
ghost use Rattle.book_progression.specs.NodeBytes.{IsHeld};
ghost use Rattle.book_progression.specs.Promises.{Parts, PendingBegun, Progressed};
ghost use Rattle.file_tower.specs.TowerRead.{tower_read};
ghost use Rattle.answer_numbers.specs.Shown.{shown};
ghost use Rattle.testing.specs.Said.{tower_said};

use answer_numbers::Answer;

// What is pending at first, written to the part of the area that starts at `to`.
#[unsafe(no_mangle)]
pub extern "C" fn test_begin(book: &[u8], area: &mut [u8], to: usize)
    requires held { IsHeld book.now }
    requires book_in_bounds { to + nodes_in book.now ≤ length area.old }
    ensures { PendingBegun book.now area.old to area.new }
{
    testing::test_begin(book, area, to)
}

// A step of d ticks out of a state with these marks, from one part of the area into another. False
// if the step is broken.
#[unsafe(no_mangle)]
pub extern "C" fn test_progressed(
    book: &[u8],
    mask: usize,
    d: u64,
    area: &mut [u8],
    from: usize,
    to: usize,
) -> bool
    requires held { IsHeld book.now }
    requires parts { Parts (length area.old) (nodes_in book.now) from to }
    ensures { Progressed result book.now mask (ticks d) area.old from to area.new }
{
    testing::test_progressed(book, mask, d, area, from, to)
}

// Whether the bytes are laid out as a table file.
#[unsafe(no_mangle)]
pub extern "C" fn test_laid_out(table: &[u8]) -> bool
    ensures { result ≡ laid_out table.now }
{
    testing::test_laid_out(table)
}

// A field of a table, of row i or of step i.
#[unsafe(no_mangle)]
pub extern "C" fn test_table_field(table: &[u8], which: u32, i: usize) -> usize {
    testing::test_table_field(table, which, i)
}

// The tower reader's answer.
#[unsafe(no_mangle)]
pub extern "C" fn test_read_tower(tower: &[u8]) -> Answer
    ensures { result ≡ shown (tower_said (tower_read (read_tower tower.now))) }
{
    testing::test_read_tower(tower)
}

// A field of a fit tower, of state x, or of number i: an action, and for MARKED a mark.
#[unsafe(no_mangle)]
pub extern "C" fn test_tower_field(tower: &[u8], which: u32, x: usize, i: usize) -> usize {
    testing::test_tower_field(tower, which, x, i)
}

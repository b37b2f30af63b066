// One step of progression. These two require a book that lies in its area as it should, and parts
// that lie inside the other area: the caller has to build them so.
ghost use Rattle.std.specs.Prelude.{◌+◌, ◌≤◌, length};
ghost use Rattle.logic.specs.Time.{ticks};
ghost use Rattle.reading.specs.BookArea.{nodes_in};
ghost use Rattle.book_progression.specs.NodeBytes.{IsHeld};
ghost use Rattle.book_progression.specs.Promises.{Parts, PendingBegun, Progressed};

use logic::Tick;

// What is pending at first, written to the part of the area that starts at `to`.
pub fn test_begin(book: &[u8], area: &mut [u8], to: usize)
    requires held { IsHeld book.now }
    requires book_in_bounds { to + nodes_in book.now ≤ length area.old }
    ensures { PendingBegun book.now area.old to area.new }
{
    book_progression::begin(book, area, to);
}

// A step of d ticks out of a state with these marks, from one part of the area into another. False
// if the step is broken.
pub fn test_progressed(
    book: &[u8],
    mask: usize,
    d: u64,
    area: &mut [u8],
    from: usize,
    to: usize,
) -> bool
    requires held { IsHeld book.now }
    requires parts { Parts (length area.old) (nodes_in book.now) from to }
    ensures { Progressed result book.now mask (ticks d) area.old from to area.new }
{
    book_progression::progressed(book, mask, Tick(d), area, from, to)
}

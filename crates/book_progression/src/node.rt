// The nodes of a book as they lie in its area (crates/reading/specs/BookArea.antt): four bytes each.
ghost use Rattle.std.specs.Prelude.{◌<◌, ◌≡◌};
ghost use Rattle.logic.specs.Time.{ticks};
ghost use Rattle.book_progression.specs.NodeBytes.{IsNode, code_of, number_of, first_of, second_of, fresh_of};

use logic::Tick;

const NODE_SIZE: usize = 4;

const NUMBER: usize = 1;

const FIRST: usize = 2;

const SECOND: usize = 3;

// The codes of the connectives.
pub const TRUE: u8 = 1;

pub const WANTED: u8 = 3;

pub const AND: u8 = 4;

pub const OR_FIRST_TIMED: u8 = 5;

pub const OR: u8 = 6;

pub const NO_MORE: u8 = 7;

pub const LESS: u8 = 8;

pub const NO_LESS: u8 = 9;

pub const MORE: u8 = 10;

pub const ALWAYS: u8 = 11;

pub const UNTIL: u8 = 12;

// Which connective node k is.
pub fn code(book: &[u8], k: usize) -> u8
    requires { IsNode book.now k }
    ensures { result ≡ code_of book.now k }
{
    book[NODE_SIZE * k]
}

// The bound of node k, or the number of its mark.
pub fn number(book: &[u8], k: usize) -> u8
    requires { IsNode book.now k }
    ensures { result ≡ number_of book.now k }
{
    book[NODE_SIZE * k + NUMBER]
}

// The number of its first part.
pub fn first(book: &[u8], k: usize) -> usize
    requires { IsNode book.now k }
    ensures { result ≡ first_of book.now k }
{
    book[NODE_SIZE * k + FIRST] as usize
}

// The number of its second part, or of its only one.
pub fn second(book: &[u8], k: usize) -> usize
    requires { IsNode book.now k }
    ensures { result ≡ second_of book.now k }
{
    book[NODE_SIZE * k + SECOND] as usize
}

// A new node starts with its bound (0 if it has none).
pub fn fresh(book: &[u8], k: usize) -> Tick
    requires { IsNode book.now k }
    ensures { result ≡ ticks (fresh_of book.now k) }
{
    if code(book, k) < NO_MORE {
        return Tick(0);
    }
    Tick(number(book, k) as u64)
}

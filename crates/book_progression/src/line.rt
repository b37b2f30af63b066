// The lines of a book as they lie in its area (crates/reading/specs/BookArea.antt): four bytes each.
ghost use Rattle.std.specs.Prelude.{◌≡◌};
ghost use Rattle.reading.specs.BookArea.{lines_in};
ghost use Rattle.book_progression.specs.NodeBytes.{form_of, formula_of, IsHeld};
ghost use Rattle.book_progression.specs.Promises.{IsLine};

// Where the lines begin, the bytes of a line, and where the number of lines stands.
pub const LINES_AT: usize = 240;

pub const LINE_SIZE: usize = 4;

const LINE_COUNT: usize = 481;

// Where in a line the node of its formula stands, behind its form.
pub const FORMULA: usize = 1;

// The form of an `always` line.
pub const ALWAYS: u8 = 1;

// How many lines there are.
pub fn count(book: &[u8]) -> usize
    requires { IsHeld book.now }
    ensures { result ≡ lines_in book.now }
{
    book[LINE_COUNT] as usize
}

// The form of line i.
pub fn form(book: &[u8], i: usize) -> u8
    requires { IsLine book.now i }
    ensures { result ≡ form_of book.now i }
{
    book[LINES_AT + LINE_SIZE * i]
}

// The node of its formula.
pub fn formula(book: &[u8], i: usize) -> usize
    requires { IsLine book.now i }
    ensures { result ≡ formula_of book.now i }
{
    book[LINES_AT + LINE_SIZE * i + FORMULA] as usize
}

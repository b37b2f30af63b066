// The layouts of files (01, 'Tower file' and 'Good tables', from 'Table file' on): the one code that
// knows the sizes of headers, rows and steps, and which target says 'not enabled'.
#![tactic(auto)]

ghost use Rattle.std.specs.Prelude.{◌<◌, ◌≤◌, ◌≡◌};
ghost use Rattle.logic.specs.Tower.{in_range, narrow, layout_of};
ghost use Rattle.logic.specs.TableFile.{row_size, steps_at};

use logic::FileLayout;

// The most actions.
pub const MOST_ACTIONS: usize = 16;

// Where the rows of a table file begin, and the bytes of a step.
pub const ROWS_AT: usize = 12;

pub const STEP_SIZE: usize = 3;

// The layout with one byte for a state's number.
pub fn narrow() -> FileLayout
    ensures { result ≡ narrow }
{
    FileLayout {
        header: 8,
        width: 1,
        most: 200,
        disabled: 255,
        states: 0,
        start: 3,
        offsets: 4,
    }
}

// The layout of a tower file. Here every file has the same.
pub fn layout_of(bytes: &[u8]) -> FileLayout
    ensures { result ≡ layout_of bytes.now }
{
    narrow()
}

// The bytes of a row: the state, the step count and a two-byte first step.
fn row_size(layout: FileLayout) -> usize
    requires { layout.width ≤ 2 }
    ensures { result ≡ row_size layout }
{
    layout.width + 3
}

// Where row r is written. At the number of rows this is where the steps begin.
pub fn row_at(layout: FileLayout, r: usize) -> usize
    requires width_bound { layout.width ≤ 2 }
    requires r_bound { r < 65536 }
    ensures { result ≡ steps_at layout r }
{
    ROWS_AT + row_size(layout) * r
}

// A count is from 1 to the most there may be.
pub fn in_range(most: usize, n: usize) -> bool
    ensures { result ≡ in_range most n }
{
    1 <= n && n <= most
}

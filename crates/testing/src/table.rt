// The table reader.
ghost use Rattle.std.specs.Prelude.{◌≡◌, ◌<◌, true};
ghost use Rattle.reading.specs.TableReading.{laid_out, header_right};

use crate::NOTHING;

// The fields, by number.
const ROWS: u32 = 0;

const STEPS: u32 = 1;

const STATES: u32 = 2;

const ACTIONS: u32 = 3;

const ROW_STATE: u32 = 4;

const ROW_COUNT: u32 = 5;

const ROW_FIRST: u32 = 6;

const STEP_ACTION: u32 = 7;

const STEP_TARGET: u32 = 8;

// Whether the bytes are laid out as a table file.
pub fn test_laid_out(table: &[u8]) -> bool
    ensures { result ≡ laid_out table.now }
{
    file_table::laid_out(table)
}

// A field of a table, of row i or of step i.
pub fn test_table_field(table: &[u8], which: u32, i: usize) -> usize {
    if !file_table::laid_out(table) {
        return NOTHING;
    }
    match which {
        ROWS => file_table::rows(table),
        STEPS => file_table::steps(table),
        STATES => file_table::states(table),
        ACTIONS => file_table::actions(table),
        ROW_STATE..=ROW_FIRST => row_field(table, which, i),
        _ => step_field(table, which, i),
    }
}

// A field of row i.
fn row_field(table: &[u8], which: u32, i: usize) -> usize
    requires { header_right table.now ≡ true }
{
    if file_table::rows(table) <= i {
        return NOTHING;
    }
    match which {
        ROW_STATE => file_table::row_state(table, i),
        ROW_COUNT => file_table::row_count(table, i),
        ROW_FIRST => file_table::row_first(table, i),
        _ => NOTHING,
    }
}

// A field of step i.
fn step_field(table: &[u8], which: u32, i: usize) -> usize
    requires { header_right table.now ≡ true }
{
    if file_table::steps(table) <= i {
        return NOTHING;
    }
    match which {
        STEP_ACTION => file_table::step_action(table, i),
        STEP_TARGET => file_table::step_target(table, i),
        _ => NOTHING,
    }
}

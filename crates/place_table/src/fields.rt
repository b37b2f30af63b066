// The fields of a table file; what lies past its end is 0.
ghost use Rattle.std.specs.Prelude.{◌<◌};

use place_bytes::{number_at, two_at};

// The counts of the header.
pub fn rows(bytes: &[u8]) -> usize
    ensures { result < 65536 }
{
    two_at(bytes, 0)
}

pub fn steps_count(bytes: &[u8]) -> usize
    ensures { result < 65536 }
{
    two_at(bytes, 2)
}

pub fn states(bytes: &[u8]) -> usize
    ensures { result < 65536 }
{
    two_at(bytes, 8)
}

pub fn actions(bytes: &[u8]) -> usize
    ensures { result < 65536 }
{
    two_at(bytes, 10)
}

// Where a row begins: its state, the number of its steps and its first step.
pub fn row_place(row: usize) -> usize {
    row.saturating_mul(4).saturating_add(12)
}

pub fn row_state(bytes: &[u8], row: usize) -> usize {
    number_at(bytes, row_place(row))
}

pub fn row_count(bytes: &[u8], row: usize) -> usize
    ensures { result < 256 }
{
    number_at(bytes, row_place(row).saturating_add(1))
}

pub fn row_first(bytes: &[u8], row: usize) -> usize
    ensures { result < 65536 }
{
    two_at(bytes, row_place(row).saturating_add(2))
}

// Where a step begins: its action and its target row.
pub fn step_place(bytes: &[u8], step: usize) -> usize {
    step.saturating_mul(3)
        .saturating_add(row_place(rows(bytes)))
}

pub fn step_action(bytes: &[u8], step: usize) -> usize {
    number_at(bytes, step_place(bytes, step))
}

pub fn step_target(bytes: &[u8], step: usize) -> usize {
    two_at(bytes, step_place(bytes, step).saturating_add(1))
}

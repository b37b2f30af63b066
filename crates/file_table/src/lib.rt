// Table files (01, 'Good tables', from 'Table file' on): their fields, the test of their layout, and
// the moves of the table that they hold.
#![tactic(auto)]

ghost use Rattle.std.specs.Prelude.{◌≡◌, true, ◌+◌, ◌<◌, ◌≤◌, min, length};
ghost use Rattle.logic.specs.Tables.{move};
ghost use Rattle.logic.specs.TableFile.{rows_at};
ghost use Rattle.reading.specs.TableReading.{rows_of, steps_of, table_states, table_actions, table_layout, row_place, row_state, row_count, row_first, step_place, step_action, step_target, header_right, steps_right, rows_right, laid_out, table_of};
ghost use Rattle.file_table.specs.Layout.{counts_right, offsets_right, places_right, step_right, row_right, laid_out_for};

use logic::FileLayout;

// The places of the six two-byte numbers in the header.
const ROWS: usize = 0;

const STEPS: usize = 2;

const ROWS_OFFSET: usize = 4;

const STEPS_OFFSET: usize = 6;

const STATES: usize = 8;

const ACTIONS: usize = 10;

// The most rows.
const MOST_ROWS: usize = 1000;

// The layout of a table file. Here every file has the same.
pub fn table_layout(bytes: &[u8]) -> FileLayout
    ensures { result ≡ table_layout bytes.now }
{
    file_layout::narrow()
}

// ---- the header

// How many rows there are.
pub fn rows(bytes: &[u8]) -> usize
    requires { header_right bytes.now ≡ true }
    ensures { result ≡ rows_of bytes.now }
{
    area_bytes::two_bytes(bytes, ROWS)
}

// How many steps there are, over all rows.
pub fn steps(bytes: &[u8]) -> usize
    requires { header_right bytes.now ≡ true }
    ensures { result ≡ steps_of bytes.now }
{
    area_bytes::two_bytes(bytes, STEPS)
}

// S of the tower that the table is for.
pub fn states(bytes: &[u8]) -> usize
    requires { header_right bytes.now ≡ true }
    ensures { result ≡ table_states bytes.now }
{
    area_bytes::two_bytes(bytes, STATES)
}

// A of the tower that the table is for.
pub fn actions(bytes: &[u8]) -> usize
    requires { header_right bytes.now ≡ true }
    ensures { result ≡ table_actions bytes.now }
{
    area_bytes::two_bytes(bytes, ACTIONS)
}

// ---- a row

// Where row r is written. At the number of rows this is where the steps begin.
fn row_place(bytes: &[u8], r: usize) -> usize
    requires { r ≤ rows_of bytes.now }
    ensures { result ≡ row_place bytes.now r }
{
    file_layout::row_at(table_layout(bytes), r)
}

// The state of row r.
pub fn row_state(bytes: &[u8], r: usize) -> usize
    requires bytes_value { header_right bytes.now ≡ true }
    requires r_bound { r < rows_of bytes.now }
    ensures { result ≡ row_state bytes.now r }
{
    let layout = table_layout(bytes);
    area_bytes::number(bytes, row_place(bytes, r), layout.width)
}

// The number of steps of row r.
pub fn row_count(bytes: &[u8], r: usize) -> usize
    requires bytes_value { header_right bytes.now ≡ true }
    requires r_bound { r < rows_of bytes.now }
    ensures { result ≡ row_count bytes.now r }
{
    let layout = table_layout(bytes);
    let p = row_place(bytes, r);
    bytes[p + layout.width] as usize
}

// The first step of row r.
pub fn row_first(bytes: &[u8], r: usize) -> usize
    requires bytes_value { header_right bytes.now ≡ true }
    requires r_bound { r < rows_of bytes.now }
    ensures { result ≡ row_first bytes.now r }
{
    let layout = table_layout(bytes);
    area_bytes::two_bytes(bytes, row_place(bytes, r) + layout.width + 1)
}

// ---- a step

// Where step i begins.
fn step_place(bytes: &[u8], i: usize) -> usize
    requires bytes_value { header_right bytes.now ≡ true }
    requires i_bound { i < steps_of bytes.now }
    ensures { result ≡ step_place bytes.now i }
{
    row_place(bytes, rows(bytes)) + file_layout::STEP_SIZE * i
}

// The action of step i.
pub fn step_action(bytes: &[u8], i: usize) -> usize
    requires bytes_value { header_right bytes.now ≡ true }
    requires i_bound { i < steps_of bytes.now }
    ensures { result ≡ step_action bytes.now i }
{
    let p = step_place(bytes, i);
    bytes[p] as usize
}

// The target row of step i.
pub fn step_target(bytes: &[u8], i: usize) -> usize
    requires bytes_value { header_right bytes.now ≡ true }
    requires i_bound { i < steps_of bytes.now }
    ensures { result ≡ step_target bytes.now i }
{
    area_bytes::two_bytes(bytes, step_place(bytes, i) + 1)
}

// ---- the layout

// The counts of the header are in range: rows, S and A.
fn counts_right(bytes: &[u8]) -> bool
    requires { rows_at ≤ length bytes.now }
    ensures { result ≡ counts_right bytes.now }
{
    if !file_layout::in_range(MOST_ROWS, area_bytes::two_bytes(bytes, ROWS)) {
        return false;
    }
    let layout = table_layout(bytes);
    if !file_layout::in_range(layout.most, area_bytes::two_bytes(bytes, STATES)) {
        return false;
    }
    file_layout::in_range(
        file_layout::MOST_ACTIONS,
        area_bytes::two_bytes(bytes, ACTIONS),
    )
}

// The offsets of the header are right.
fn offsets_right(bytes: &[u8]) -> bool
    requires { rows_at ≤ length bytes.now }
    ensures { result ≡ offsets_right bytes.now }
{
    if area_bytes::two_bytes(bytes, ROWS_OFFSET) != file_layout::ROWS_AT {
        return false;
    }
    let steps_at = row_place(bytes, area_bytes::two_bytes(bytes, ROWS));
    area_bytes::two_bytes(bytes, STEPS_OFFSET) == steps_at
}

// The offsets of the header are right, and nothing follows the last step.
fn places_right(bytes: &[u8]) -> bool
    requires { rows_at ≤ length bytes.now }
    ensures { result ≡ places_right bytes.now }
{
    if !offsets_right(bytes) {
        return false;
    }
    let steps_at = row_place(bytes, area_bytes::two_bytes(bytes, ROWS));
    bytes.len() == steps_at + file_layout::STEP_SIZE * area_bytes::two_bytes(bytes, STEPS)
}

// The header is whole, and its counts and places are right.
fn header_right(bytes: &[u8]) -> bool
    ensures { result ≡ header_right bytes.now }
{
    if bytes.len() < file_layout::ROWS_AT {
        return false;
    }
    if !counts_right(bytes) {
        return false;
    }
    places_right(bytes)
}

// Step i has an action from `low` or above and below A, and a target below rows.
fn step_right(bytes: &[u8], low: usize, i: usize) -> bool
    requires bytes_value { header_right bytes.now ≡ true }
    requires i_bound { i < steps_of bytes.now }
    ensures { result ≡ step_right bytes.now low i }
{
    let action = step_action(bytes, i);
    if action < low {
        return false;
    }
    if actions(bytes) <= action {
        return false;
    }
    step_target(bytes, i) < rows(bytes)
}

// The `count` steps from step `first` on are right: the actions before step i are below `low`.
fn steps_right(bytes: &[u8], first: usize, count: usize) -> bool
    requires bytes_value { header_right bytes.now ≡ true }
    requires count_bound { first + count ≤ steps_of bytes.now }
    ensures { result ≡ steps_right bytes.now 0 first count }
{
    let end = first + count;
    let mut low = 0;
    for i in first..end {
        if !step_right(bytes, low, i) {
            return false;
        }
        low = step_action(bytes, i) + 1;
    }
    true
}

// Row r has a state below S, and its steps are right and follow the `first` steps before them.
fn row_right(bytes: &[u8], first: usize, r: usize, count: usize) -> bool
    requires bytes_value { header_right bytes.now ≡ true }
    requires r_bound { r < rows_of bytes.now }
    requires count_value { count ≡ row_count bytes.now r }
    requires count_bound { first + count ≤ steps_of bytes.now }
    ensures { result ≡ row_right bytes.now first r }
{
    if states(bytes) <= row_state(bytes, r) {
        return false;
    }
    let first_step = row_first(bytes, r);
    if first_step != first {
        return false;
    }
    steps_right(bytes, first, count)
}

// All rows are right: `first` steps come before row r, and in the end these are all.
fn rows_right(bytes: &[u8]) -> bool
    requires { header_right bytes.now ≡ true }
    ensures { result ≡ rows_right bytes.now 0 0 (rows_of bytes.now) }
{
    let rows = rows(bytes);
    let steps = steps(bytes);
    let mut first = 0;
    for r in 0..rows {
        let count = row_count(bytes, r);
        if steps - first < count {
            return false;
        }
        if !row_right(bytes, first, r, count) {
            return false;
        }
        first += count;
    }
    first == steps
}

// The bytes are laid out as a table file.
pub fn laid_out(bytes: &[u8]) -> bool
    ensures { result ≡ laid_out bytes.now }
{
    if !header_right(bytes) {
        return false;
    }
    rows_right(bytes)
}

// The bytes are laid out as a table file for a tower of s states and a actions.
pub fn laid_out_for(bytes: &[u8], s: usize, a: usize) -> bool
    ensures { result ≡ laid_out_for bytes.now s a }
{
    if !laid_out(bytes) {
        return false;
    }
    if states(bytes) != s {
        return false;
    }
    actions(bytes) == a
}

// ---- moves

// How many of a row's steps may have the action or one below it: actions ascend, so the step with
// j steps before it has action j or above.
fn reachable_steps(count: usize, action: usize) -> usize
    ensures { result ≡ min count (action + 1) }
{
    if count <= action {
        return count;
    }
    action + 1
}

// The row that an action leads to from a row of the table, if it is allowed there. From the last of the steps that may have it down to
// the first: the steps from step i on have greater actions.
pub fn step_to(bytes: &[u8], row: usize, action: usize) -> Option<usize>
    requires bytes_value { laid_out bytes.now ≡ true }
    requires row_bound { row < rows_of bytes.now }
    ensures { result ≡ move (table_of bytes.now) row action }
{
    let first = row_first(bytes, row);
    let end = first + reachable_steps(row_count(bytes, row), action);
    for i in (first..end).rev() {
        let found = step_action(bytes, i);
        if found == action {
            return Some(step_target(bytes, i));
        }
        if found < action {
            return None;
        }
    }
    None
}

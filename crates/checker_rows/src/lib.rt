// The first part of the checker (01, 'Good tables', a to d): whether the rows of a table are those of
// the tower, row by row. The book has no part in it.
#![tactic(auto)]

ghost use Rattle.std.specs.Prelude.{◌+◌, ◌<◌, ◌≡◌};
ghost use Rattle.logic.specs.Tower.{tower_of};
ghost use Rattle.reading.specs.TableReading.{rows_of, row_first, row_count, step_of, table_of};
ghost use Rattle.outcome.specs.Check.{wrong_start, withheld, wrong_step, stopped};
ghost use Rattle.checker_rows.specs.RowVerdict.{RowsJudgeable, some_withheld, some_wrong_step, row_verdict, rows_verdict};

use base::Reason;

// ---- a

// Row 0 has not the tower's start state.
fn wrong_start(tower: &[u8], table: &[u8]) -> bool
    requires { RowsJudgeable tower.now table.now }
    ensures { result ≡ wrong_start (tower_of tower.now) (table_of table.now) }
{
    file_table::row_state(table, 0) != file_tower::start(tower)
}

// ---- b

// Action a is enabled in row r, may not be withheld, and has no step.
fn withheld(tower: &[u8], table: &[u8], r: usize, a: usize) -> bool
    requires rows_judgeable { RowsJudgeable tower.now table.now }
    requires r_bound { r < rows_of table.now }
    requires a_bound { a < (tower_of tower.now).actions }
    ensures { result ≡ withheld (tower_of tower.now) (table_of table.now) r a }
{
    if file_kinds::controllable(file_tower::kind(tower, a)) {
        return false;
    }
    if file_tower::target(tower, file_table::row_state(table, r), a).is_none() {
        return false;
    }
    file_table::step_to(table, r, a).is_none()
}

// Some action is withheld in row r.
fn some_withheld(tower: &[u8], table: &[u8], r: usize) -> bool
    requires rows_judgeable { RowsJudgeable tower.now table.now }
    requires r_bound { r < rows_of table.now }
    ensures { result ≡ some_withheld (tower_of tower.now) (table_of table.now) r }
{
    let actions = file_tower::actions(tower);
    for a in 0..actions {
        if withheld(tower, table, r, a) {
            return true;
        }
    }
    false
}

// ---- c

// Step i, one of row r, is by an action that is not enabled, or its target row has another state than
// the one reached.
fn wrong_step(tower: &[u8], table: &[u8], r: usize, i: usize) -> bool
    requires rows_judgeable { RowsJudgeable tower.now table.now }
    requires r_bound { r < rows_of table.now }
    requires i_bound { i < row_first table.now r + row_count table.now r }
    ensures { result ≡ wrong_step (tower_of tower.now) (table_of table.now) r (step_of table.now i) }
{
    let x = file_table::row_state(table, r);
    let Some(y) = file_tower::target(tower, x, file_table::step_action(table, i)) else {
        return true;
    };
    file_table::row_state(table, file_table::step_target(table, i)) != y
}

// Some step of row r is wrong.
fn some_wrong_step(tower: &[u8], table: &[u8], r: usize) -> bool
    requires rows_judgeable { RowsJudgeable tower.now table.now }
    requires r_bound { r < rows_of table.now }
    ensures { result ≡ some_wrong_step (tower_of tower.now) (table_of table.now) r }
{
    let first = file_table::row_first(table, r);
    let end = first + file_table::row_count(table, r);
    for i in first..end {
        if wrong_step(tower, table, r, i) {
            return true;
        }
    }
    false
}

// ---- d

// No step of row r is by an action that counts as going on.
fn stopped(tower: &[u8], table: &[u8], r: usize) -> bool
    requires rows_judgeable { RowsJudgeable tower.now table.now }
    requires r_bound { r < rows_of table.now }
    ensures { result ≡ stopped (tower_of tower.now) (table_of table.now) r }
{
    let first = file_table::row_first(table, r);
    let end = first + file_table::row_count(table, r);
    for i in first..end {
        if file_kinds::goes_on(file_tower::kind(tower, file_table::step_action(table, i))) {
            return false;
        }
    }
    true
}

// ---- the rows

// Row r is right, or the first reason why not, in the order b, c, d.
fn judge_row(tower: &[u8], table: &[u8], r: usize) -> Result<(), Reason>
    requires rows_judgeable { RowsJudgeable tower.now table.now }
    requires r_bound { r < rows_of table.now }
    ensures { result ≡ row_verdict (tower_of tower.now) (table_of table.now) r (Ok tt) }
{
    if some_withheld(tower, table, r) {
        return Err(Reason::Withheld(r));
    }
    if some_wrong_step(tower, table, r) {
        return Err(Reason::WrongStep(r));
    }
    if stopped(tower, table, r) {
        return Err(Reason::Stopped(r));
    }
    Ok(())
}

// The rows are right, or the first of the reasons a to d: a, then b to d by row.
pub fn judge_rows(tower: &[u8], table: &[u8]) -> Result<(), Reason>
    requires { RowsJudgeable tower.now table.now }
    ensures { result ≡ rows_verdict (tower_of tower.now) (table_of table.now) }
{
    if wrong_start(tower, table) {
        return Err(Reason::Start);
    }
    let rows = file_table::rows(table);
    for r in 0..rows {
        judge_row(tower, table, r)?;
    }
    Ok(())
}

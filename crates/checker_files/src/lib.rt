// Tower and table tested without a book, in the checker's order: the tower, 13, 14 a to d. The checker
// tests a table so behind the book, and the log reader begins so (02, item 2).
#![tactic(auto)]

ghost use Rattle.std.specs.Prelude.{◌≡◌};
ghost use Rattle.logic.specs.Tower.{FitTower, tower_of};
ghost use Rattle.file_table.specs.Layout.{laid_out_for};
ghost use Rattle.checker_files.specs.Testing.{TableTested, FilesTested};

use base::{Refusal, Rejection};

// The table is laid out as a table file, and its S and A are the tower's.
fn for_tower(tower: &[u8], table: &[u8]) -> bool
    requires { FitTower tower.now }
    ensures { result ≡ laid_out_for table.now (tower_of tower.now).states (tower_of tower.now).actions }
{
    let s = file_tower::states(tower);
    let a = file_tower::actions(tower);
    file_table::laid_out_for(table, s, a)
}

// The table, where the tower is read: 13, 14 a to d.
pub fn test_table(tower: &[u8], table: &[u8]) -> Result<(), Rejection>
    requires { FitTower tower.now }
    ensures { TableTested result tower.now table.now }
{
    if !for_tower(tower, table) {
        return Err(Rejection::Refused(Refusal::Layout));
    }
    checker_rows::judge_rows(tower, table)?;
    Ok(())
}

// The two files: the tower, 13, 14 a to d.
pub fn test_files(tower: &[u8], table: &[u8]) -> Result<(), Rejection>
    ensures { FilesTested result tower.now table.now }
{
    file_tower::read_tower(tower)?;
    test_table(tower, table)
}

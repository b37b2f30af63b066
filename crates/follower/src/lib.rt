// The follower: what a table does at one action. This is the entry that runs on every clavier.
#![tactic(auto)]

ghost use Rattle.follower.specs.Following.{Follows};

use base::{FollowAnswer, Refusal};

// The row that an action leads to from a row of the table. Refused with 13 if the bytes are not laid
// out as a table file, 17 if the row or the action lies outside the table, 18 if the action is not
// allowed in that row.
pub fn follow(table: &[u8], row: usize, action: usize) -> FollowAnswer
    ensures { Follows result table.now row action }
{
    if !file_table::laid_out(table) {
        return Err(Refusal::Layout);
    }
    if file_table::rows(table) <= row {
        return Err(Refusal::Outside);
    }
    if file_table::actions(table) <= action {
        return Err(Refusal::Outside);
    }
    file_table::step_to(table, row, action).ok_or(Refusal::NotAllowed)
}

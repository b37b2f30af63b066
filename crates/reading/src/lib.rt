// Reading towers, rule books, table files and logs. The definitions are in specs/; here is the type
// that they share with the code.
#![tactic(auto)]

use logic::Tick;

// A line of a log (02, item 2): the tick at which an action began, and the action.
#[derive(Clone, Copy)]
pub struct Stroke {
    pub tick: Tick,
    pub action: usize,
}

// The whole outcome of each of the five entries on given bytes, and the mathematics of the demands.
// Here are the types that the log reader's definitions share with its code (02, item 2).
#![tactic(auto)]

use logic::{Position, Tick};
use reading::Stroke;

// Where a log has come to along a table: the row, and the tick that is due. At the first line any is.
#[derive(Clone, Copy)]
pub struct LogPlace {
    pub row: usize,
    pub due: Option<Tick>,
}

// The first line of a log that does not fit, with where the lines before it lead. Line i is the action that
// leaves position i.
#[derive(Clone, Copy)]
pub struct Misfit {
    pub line: Position,
    pub place: LogPlace,
    pub stroke: Stroke,
}

// What the lines of a log come to along a table: every line fits, and this is where they lead; or the first that
// does not.
pub type Course = Result<LogPlace, Misfit>;

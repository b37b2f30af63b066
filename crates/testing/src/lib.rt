// Inner functions for tests and benchmarks in other languages, which no product links; testing_c exports them, and
// succoryvise_c the entries themselves. An enum cannot cross, so an answer crosses as numbers. None of these functions but
// those of `runs` requires anything: each tests what the function below it requires, and answers NOTHING where that does
// not hold.
#![tactic(auto)]

mod runs;
mod table;
mod tower;

pub use runs::{test_begin, test_progressed};
pub use table::{test_laid_out, test_table_field};
pub use tower::{test_read_tower, test_tower_field};

// What no field holds.
const NOTHING: usize = 0xffff_ffff_ffff_ffff;

// For the programs: a file read whole, a file written so that the old one is whole until the new one
// is, and standard output. What a call of the system reads or writes is in no contract; each function
// here says on standard error why it failed, by the name that the user gave.
#![tactic(auto)]

mod naming;
mod reading;
mod writing;

pub use reading::{argument, argument_count, fill, open, read_file};
pub use writing::{print, save, unchanged};

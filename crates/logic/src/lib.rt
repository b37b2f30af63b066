// Ticks count time and positions count actions (01, 'Runs and broken rules'). Each is a type of its
// own, so that the two are never added or compared.
#![tactic(auto)]

// A number of ticks: the length of a step, a bound, or what is left of a bound.
#[derive(Clone, Copy, PartialEq, Eq, PartialOrd, Ord)]
pub struct Tick(pub u64);

// A position of a run. Position i follows i actions.
#[derive(Clone, Copy, PartialEq, Eq, PartialOrd, Ord)]
pub struct Position(pub usize);

// How a tower's file and its tables are laid out (01, 'Tower file'): what follows from the bytes that
// a state's number takes.
#[derive(Clone, Copy)]
pub struct FileLayout {
    // The bytes of a tower's header: the actions begin there.
    pub header: usize,
    // The bytes of a state's number: of S, of the start, of a target, and of a row's state.
    pub width: usize,
    // The most states.
    pub most: usize,
    // The target that says 'not enabled'.
    pub disabled: usize,
    // Where the header has S, the start, and the two offsets.
    pub states: usize,
    pub start: usize,
    pub offsets: usize,
}

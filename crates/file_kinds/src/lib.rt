// What the kinds of actions mean (01, 'Tower file' and 'Good tables'; 02, item 1): the one code that
// tells them apart. Kind 0 is the player's.
#![tactic(auto)]

ghost use Rattle.std.specs.Prelude.{◌≡◌, ltb};
ghost use Rattle.logic.specs.Tower.{controllable, goes_on, last_kind};

// The kind of the actions that may be withheld.
const OURS: usize = 1;

// The kind of the actions that may not be withheld and are sure to come. It is the largest.
pub const SURE: usize = 2;

// There is no such kind.
pub fn unknown(kind: usize) -> bool
    ensures { result ≡ ltb last_kind kind }
{
    SURE < kind
}

// An action of this kind may be withheld.
pub fn controllable(kind: usize) -> bool
    ensures { result ≡ controllable kind }
{
    kind == OURS
}

// An action of this kind counts as going on: ours, and what is sure to come.
pub fn goes_on(kind: usize) -> bool
    ensures { result ≡ goes_on kind }
{
    if kind == OURS {
        return true;
    }
    kind == SURE
}

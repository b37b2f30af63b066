// The tower reader (01, 'Tower file'): whether a file is fit to be a tower, and the fields of one
// that is. Its answers are those of `read_tower` and `tower_of`, the definitions.
#![tactic(auto)]

mod fields;
mod fit;

ghost use Rattle.std.specs.Prelude.{◌<◌, ◌≡◌};
ghost use Rattle.logic.specs.Tower.{FitTower, tower_of, mask_of};
ghost use Rattle.reading.specs.TowerReading.{read_tower};
ghost use Rattle.file_tower.specs.TowerRead.{tower_read};

use base::Refusal;
use logic::Tick;

// Whether the file is fit. Refused with the first that holds, each looked for in the whole file: 1
// if the header is not whole, 2, 1, 3, 4, 5.
pub fn read_tower(bytes: &[u8]) -> Result<(), Refusal>
    ensures { result ≡ tower_read (read_tower bytes.now) }
{
    if fit::no_header(bytes) {
        return Err(Refusal::TowerSize);
    }
    if fit::bad_counts(bytes) {
        return Err(Refusal::Range);
    }
    if fit::bad_size(bytes) {
        return Err(Refusal::TowerSize);
    }
    if fit::bad_actions(bytes) {
        return Err(Refusal::Action);
    }
    if fit::bad_targets(bytes) {
        return Err(Refusal::Target);
    }
    if fit::bad_masks(bytes) {
        return Err(Refusal::Mask);
    }
    Ok(())
}

// How many states a fit tower has.
pub fn states(bytes: &[u8]) -> usize
    requires { FitTower bytes.now }
    ensures { result ≡ (tower_of bytes.now).states }
{
    fields::states_of(bytes)
}

// How many actions.
pub fn actions(bytes: &[u8]) -> usize
    requires { FitTower bytes.now }
    ensures { result ≡ (tower_of bytes.now).actions }
{
    fields::actions_of(bytes)
}

// How many marks.
pub fn marks(bytes: &[u8]) -> usize
    requires { FitTower bytes.now }
    ensures { result ≡ (tower_of bytes.now).marks }
{
    fields::marks_of(bytes)
}

// The start state.
pub fn start(bytes: &[u8]) -> usize
    requires { FitTower bytes.now }
    ensures { result ≡ (tower_of bytes.now).start }
{
    fields::start_of(bytes)
}

// The kind of action a (crates/file_kinds).
pub fn kind(bytes: &[u8], a: usize) -> usize
    requires fit_tower { FitTower bytes.now }
    requires a_bound { a < (tower_of bytes.now).actions }
    ensures { result ≡ (tower_of bytes.now).kind a }
{
    fields::kind_of(bytes, a)
}

// The length of the step that leaves state x by action a. Here it is the action's, whatever the state.
pub fn step_length(bytes: &[u8], x: usize, a: usize) -> Tick
    requires fit_tower { FitTower bytes.now }
    requires x_bound { x < (tower_of bytes.now).states }
    requires a_bound { a < (tower_of bytes.now).actions }
    ensures { result ≡ (tower_of bytes.now).step_length x a }
{
    Tick(fields::length_of(bytes, a) as u64)
}

// The state that action a leads to from state x, or that it is not enabled there.
pub fn target(bytes: &[u8], x: usize, a: usize) -> Option<usize>
    requires fit_tower { FitTower bytes.now }
    requires x_bound { x < (tower_of bytes.now).states }
    requires a_bound { a < (tower_of bytes.now).actions }
    ensures { result ≡ (tower_of bytes.now).target x a }
{
    let y = fields::target_of(bytes, x, a);
    let layout = file_layout::layout_of(bytes);
    if y == layout.disabled {
        return None;
    }
    Some(y)
}

// The marks of state x, a bit each.
pub fn mask(bytes: &[u8], x: usize) -> usize
    requires fit_tower { FitTower bytes.now }
    requires x_bound { x < (tower_of bytes.now).states }
    ensures { result ≡ mask_of bytes.now x }
{
    fields::mask_of(bytes, x)
}

// State x has mark k.
pub fn marked(bytes: &[u8], x: usize, k: usize) -> bool
    requires fit_tower { FitTower bytes.now }
    requires x_bound { x < (tower_of bytes.now).states }
    requires k_bound { k < 16 }
    ensures { result ≡ (tower_of bytes.now).marked x k }
{
    (mask(bytes, x) >> k) % 2 == 1
}

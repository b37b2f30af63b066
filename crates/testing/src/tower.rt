// The tower reader.
ghost use Rattle.std.specs.Prelude.{◌≡◌};
ghost use Rattle.logic.specs.Tower.{FitTower};
ghost use Rattle.reading.specs.TowerReading.{read_tower};
ghost use Rattle.file_tower.specs.TowerRead.{tower_read};
ghost use Rattle.answer_numbers.specs.Shown.{shown};
ghost use Rattle.testing.specs.Said.{tower_said};

use crate::NOTHING;
use answer_numbers::Answer;

// The fields, by number.
const STATES: u32 = 0;

const ACTIONS: u32 = 1;

const MARKS: u32 = 2;

const START: u32 = 3;

const KIND: u32 = 4;

const LENGTH: u32 = 5;

const TARGET: u32 = 6;

const MASK: u32 = 7;

const MARKED: u32 = 8;

// The marks that a mask has room for.
const MASK_BITS: usize = 16;

// The tower reader's answer.
pub fn test_read_tower(tower: &[u8]) -> Answer
    ensures { result ≡ shown (tower_said (tower_read (read_tower tower.now))) }
{
    match file_tower::read_tower(tower) {
        Ok(()) => answer_numbers::yes(),
        Err(refusal) => answer_numbers::refused(refusal),
    }
}

// A field of a fit tower, of state x, or of number i: an action, and for MARKED a mark.
pub fn test_tower_field(tower: &[u8], which: u32, x: usize, i: usize) -> usize {
    let Ok(()) = file_tower::read_tower(tower) else {
        return NOTHING;
    };
    match which {
        STATES => file_tower::states(tower),
        ACTIONS => file_tower::actions(tower),
        MARKS => file_tower::marks(tower),
        START => file_tower::start(tower),
        KIND => kind(tower, i),
        LENGTH | TARGET => step_field(tower, which, x, i),
        _ => state_field(tower, which, x, i),
    }
}

// The kind of action i.
fn kind(tower: &[u8], i: usize) -> usize
    requires { FitTower tower.now }
{
    if file_tower::actions(tower) <= i {
        return NOTHING;
    }
    file_tower::kind(tower, i)
}

// A field of the step that leaves state x by action i. The target is NOTHING where it is not enabled.
fn step_field(tower: &[u8], which: u32, x: usize, i: usize) -> usize
    requires { FitTower tower.now }
{
    if file_tower::states(tower) <= x {
        return NOTHING;
    }
    if file_tower::actions(tower) <= i {
        return NOTHING;
    }
    if which == LENGTH {
        let length = file_tower::step_length(tower, x, i);
        return length.0 as usize;
    }
    file_tower::target(tower, x, i).unwrap_or(NOTHING)
}

// The mask of state x, or whether it has mark i, as 1 or 0.
fn state_field(tower: &[u8], which: u32, x: usize, i: usize) -> usize
    requires { FitTower tower.now }
{
    if file_tower::states(tower) <= x {
        return NOTHING;
    }
    if which == MASK {
        return file_tower::mask(tower, x);
    }
    if which != MARKED {
        return NOTHING;
    }
    if MASK_BITS <= i {
        return NOTHING;
    }
    file_tower::marked(tower, x, i) as usize
}

// The fields of a tower file, as the definitions have them (logic/specs/Tower.antt), through the
// layout of the file. Each function asks for no more of the file than that its field is there, so
// that the tests can use it too.
ghost use Rattle.std.specs.Prelude.{◌<◌, ◌≤◌, ◌≡◌, length};
ghost use Rattle.base.specs.Bytes.{byte_at};
ghost use Rattle.logic.specs.Tower.{states_of, actions_of, marks_of, start_of, actions_offset, states_offset};
ghost use Rattle.logic.specs.Tower.{states_at, state_size, state_at, length_of, kind_of, mask_of, target_of};
ghost use Rattle.file_tower.specs.Stages.{Headed, Counted, Sized};

// Where the header has A and P.
const ACTIONS: usize = 1;

const MARKS: usize = 2;

// The bytes of an action, of a mask and of an offset.
const ACTION_SIZE: usize = 2;

const MASK_SIZE: usize = 2;

const OFFSET_SIZE: usize = 2;

// The byte at p.
fn byte(bytes: &[u8], p: usize) -> usize
    requires { p < length bytes.now }
    ensures { result ≡ byte_at bytes.now p }
{
    bytes[p] as usize
}

// The number of states.
pub fn states_of(bytes: &[u8]) -> usize
    requires { Headed bytes.now }
    ensures { result ≡ states_of bytes.now }
{
    let layout = file_layout::layout_of(bytes);
    area_bytes::number(bytes, layout.states, layout.width)
}

// The number of actions.
pub fn actions_of(bytes: &[u8]) -> usize
    requires { Headed bytes.now }
    ensures { result ≡ actions_of bytes.now }
{
    byte(bytes, ACTIONS)
}

// The number of marks.
pub fn marks_of(bytes: &[u8]) -> usize
    requires { Headed bytes.now }
    ensures { result ≡ marks_of bytes.now }
{
    byte(bytes, MARKS)
}

// The start state.
pub fn start_of(bytes: &[u8]) -> usize
    requires { Headed bytes.now }
    ensures { result ≡ start_of bytes.now }
{
    let layout = file_layout::layout_of(bytes);
    area_bytes::number(bytes, layout.start, layout.width)
}

// The offset of the actions, as it is written.
pub fn actions_offset(bytes: &[u8]) -> usize
    requires { Headed bytes.now }
    ensures { result ≡ actions_offset bytes.now }
{
    let layout = file_layout::layout_of(bytes);
    area_bytes::two_bytes(bytes, layout.offsets)
}

// The offset of the states, as it is written.
pub fn states_offset(bytes: &[u8]) -> usize
    requires { Headed bytes.now }
    ensures { result ≡ states_offset bytes.now }
{
    let layout = file_layout::layout_of(bytes);
    area_bytes::two_bytes(bytes, layout.offsets + OFFSET_SIZE)
}

// Where the states begin.
pub fn states_at(bytes: &[u8]) -> usize
    requires { Counted bytes.now }
    ensures { result ≡ states_at bytes.now }
{
    let layout = file_layout::layout_of(bytes);
    layout.header + ACTION_SIZE * actions_of(bytes)
}

// The bytes of one state.
fn state_size(bytes: &[u8]) -> usize
    requires { Counted bytes.now }
    ensures { result ≡ state_size bytes.now }
{
    let layout = file_layout::layout_of(bytes);
    MASK_SIZE + layout.width * actions_of(bytes)
}

// Where state x is written. At the number of states this is where the file ends.
pub fn state_at(bytes: &[u8], x: usize) -> usize
    requires counted { Counted bytes.now }
    requires x_bound { x ≤ states_of bytes.now }
    ensures { result ≡ state_at bytes.now x }
{
    states_at(bytes) + state_size(bytes) * x
}

// The length of action a.
pub fn length_of(bytes: &[u8], a: usize) -> usize
    requires sized { Sized bytes.now }
    requires a_bound { a < actions_of bytes.now }
    ensures { result ≡ length_of bytes.now a }
{
    let layout = file_layout::layout_of(bytes);
    byte(bytes, layout.header + ACTION_SIZE * a)
}

// The kind of action a.
pub fn kind_of(bytes: &[u8], a: usize) -> usize
    requires sized { Sized bytes.now }
    requires a_bound { a < actions_of bytes.now }
    ensures { result ≡ kind_of bytes.now a }
{
    let layout = file_layout::layout_of(bytes);
    byte(bytes, layout.header + ACTION_SIZE * a + 1)
}

// The mask of state x.
pub fn mask_of(bytes: &[u8], x: usize) -> usize
    requires sized { Sized bytes.now }
    requires x_bound { x < states_of bytes.now }
    ensures { result ≡ mask_of bytes.now x }
{
    area_bytes::two_bytes(bytes, state_at(bytes, x))
}

// The target of action a in state x, as it is written.
pub fn target_of(bytes: &[u8], x: usize, a: usize) -> usize
    requires sized { Sized bytes.now }
    requires x_bound { x < states_of bytes.now }
    requires a_bound { a < actions_of bytes.now }
    ensures { result ≡ target_of bytes.now x a }
{
    let layout = file_layout::layout_of(bytes);
    let targets = state_at(bytes, x) + MASK_SIZE;
    area_bytes::number(bytes, targets + layout.width * a, layout.width)
}
